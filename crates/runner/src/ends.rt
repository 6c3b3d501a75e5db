//! Runs of turns from a tree.

ghost use Rattle.std.specs.Prelude.{◌≡◌, ◌<◌, ◌≤◌, ◌^◌, length, IfOk, true};
ghost use Rattle.std.specs.List.{AllByRecursion};
ghost use Rattle.fusion_rules.specs.Fusion.{fuses};
ghost use Rattle.symbol_table.specs.Category.{symbols};
ghost use Rattle.tree_shapes.specs.Labelled.{is_admissible, size};
ghost use Rattle.tree_shapes.specs.Outlines as outline;
ghost use Rattle.tree_shapes.specs.Views.{labelled};
ghost use Rattle.tree_shapes.specs.declared.limits.TheConstants.{STRAND_LIMIT};
ghost use Rattle.word_runs.specs.Runs.{run_of, start_word};
ghost use Rattle.word_runs.specs.Lives.{IsFit, lives_of};
ghost use Rattle.charge_project.specs.Weights.{stated_weight};
ghost use Rattle.outcome_rows.specs.Ends.{AreOutcomesOf, RunsSorted, StopsAs, weighed_ends};
ghost use Rattle.outcome_rows.specs.Rows.{outcomes_in};
ghost use Rattle.runner.specs.Trees.{IsTreeState, tree_told};
ghost use Rattle.runner.specs.Evaluated.{own_state};

use crate::engine::TreeEngine;
use crate::turns::Turns;
use charge_project::weight;
use outcome_rows::{Rows, letter_outcomes, sorted_ends};
use recouple::{TreeState, start};
use ring_laws::StarRing;
use std::alloc::{AllocError, Global};
use symbol_table::Category;
use tree_shapes::Tree;
use word_runs::{LiveWord, RunFault};

/// The state in which a run begins: a tree with its own labels.
pub(crate) fn begin<R: StarRing>(
    alloc: Global,
    category: &Category<R>,
    tree: &Tree,
) -> Result<TreeState<R>, AllocError>
    requires some { 2 ≤ size (labelled tree.now) }
    requires few { size (labelled tree.now) ≤ STRAND_LIMIT }
    requires admissible { is_admissible (fuses category.now.rules) (labelled tree.now) ≡ true }
    ensures value { let c = symbols R.StarRing category.now in IfOk result (λ s. s ≡ own_state c.ring (labelled tree.now)) }
    ensures state { IfOk result (IsTreeState (symbols R.StarRing category.now) (size (labelled tree.now))) }
{
    match start(alloc, category, tree) {
        Ok(state) => Ok(state),
        Err(fault) => Err(fault),
    }
}

/// How many strands a state has.
fn strands_of<R: StarRing>(state: &TreeState<R>) -> u8
    requires { outline.size state.now.shape ≡ length state.now.strands }
    ensures { result ≡ length state.now.strands }
{
    state.shape().leaves()
}

/// The total and the rows of turns from a state.
pub(crate) fn rows_from<R: StarRing>(
    alloc: Global,
    category: &Category<R>,
    state: TreeState<R>,
    turns: &Turns,
) -> Result<Rows<R>, RunFault>
    requires state { IsTreeState (symbols R.StarRing category.now) (length state.strands) state }
    requires fit { AllByRecursion (IsFit (tree_told (symbols R.StarRing category.now) (length state.strands)) turns.now.places) turns.now.letters.items }
    requires few { length turns.now.letters.items < 2 ^ 31 }
    ensures stated { let c = symbols R.StarRing category.now in
        StopsAs result (weighed_ends (tree_told c (length state.strands)) (stated_weight c) turns.now.places turns.now.letters.items state) }
    ensures outcomes { let c = symbols R.StarRing category.now in
        IfOk result (λ rows. AreOutcomesOf (tree_told c (length state.strands)) (stated_weight c) c.held.is_zero turns.now.places turns.now.letters.items state (outcomes_in rows)) }
{
    let engine = TreeEngine {
        category,
        strands: strands_of(&state),
    };
    let letters = turns.letters.as_slice();
    let weigh = |end: &TreeState<R>| weight(category, end);
    letter_outcomes(
        alloc,
        &engine,
        category.ring(),
        letters,
        turns.places,
        state,
        weigh,
    )
}

/// The live words at the end of turns from a state, in the order of lists of labels.
pub(crate) fn ends_from<R: StarRing>(
    alloc: Global,
    category: &Category<R>,
    state: TreeState<R>,
    turns: &Turns,
) -> Result<Vec<LiveWord<TreeState<R>>>, RunFault>
    requires state { IsTreeState (symbols R.StarRing category.now) (length state.strands) state }
    requires fit { AllByRecursion (IsFit (tree_told (symbols R.StarRing category.now) (length state.strands)) turns.now.places) turns.now.letters.items }
    requires few { length turns.now.letters.items < 2 ^ 31 }
    ensures states { IfOk result (λ ends. AllByRecursion (λ l. IsTreeState (symbols R.StarRing category.now) (length state.strands) l.state) ends.items) }
    ensures stated { let c = symbols R.StarRing category.now in
        RunsSorted (λ ends. lives_of (λ s. s) ends.items) result (run_of (tree_told c (length state.strands)) 1 turns.now.letters.items (start_word turns.now.places state)) }
{
    let engine = TreeEngine {
        category,
        strands: strands_of(&state),
    };
    let letters = turns.letters.as_slice();
    sorted_ends(alloc, &engine, letters, turns.places, state)
}
