//! Steps and parts of one state, as they are stated.

ghost use Rattle.std.specs.Prelude.{◌≡◌, ◌<◌, ℕ, List, length, All, IfOk, OnOk, IsErrOf, Some, None, true};
ghost use Rattle.symbol_table.specs.Category.{symbols};
ghost use Rattle.tree_shapes.specs.Settling.{is_pair_at};
ghost use Rattle.word_runs.specs.Parts.{parts_of};
ghost use Rattle.word_runs.specs.declared.engine.Step.TheVariants.{Exchange, Raise};
ghost use Rattle.recouple.specs.States.{IsStateOf};
ghost use Rattle.charge_project.specs.Splits.{parts_below};
ghost use Rattle.runner.specs.Trees.{IsTreeState, stepped_at};

use braid_act::exchange;
use charge_project::split;
use program_text::Sign;
use recouple::TreeState;
use ring_laws::StarRing;
use std::alloc::{AllocError, Global};
use symbol_table::Category;
use word_runs::{Part, StepFault};

/// Raises the node at a gap over its parent.
pub(crate) fn raise_node<R: StarRing>(
    category: &Category<R>,
    state: &mut TreeState<R>,
    k: u8,
) -> Result<(), StepFault>
    requires low { 0 < k }
    requires high { k < length state.old.strands }
    requires state { IsTreeState (symbols R.StarRing category.now) (length state.old.strands) state.old }
    ensures state { IsTreeState (symbols R.StarRing category.now) (length state.old.strands) state.new }
    ensures value { let c = symbols R.StarRing category.now in
        OnOk result (stepped_at c (Raise k) state.old ≡ Some state.new) }
    ensures too_large { let c = symbols R.StarRing category.now in
        IsErrOf result StepFault.TooLarge → stepped_at c (Raise k) state.old ≡ None }
{
    match state.raise(category, k) {
        Ok(()) => {
            // Keys in order are the entries of their own numbers.
            state.amps().in_order();
            Ok(())
        }
        Err(fault) => Err(fault),
    }
}

/// Exchanges the strands of a pair.
pub(crate) fn exchange_pair<R: StarRing>(
    category: &Category<R>,
    state: &mut TreeState<R>,
    k: u8,
    sign: Sign,
) -> Result<(), StepFault>
    requires low { 0 < k }
    requires high { k < length state.old.strands }
    requires pair { is_pair_at state.old.shape k ≡ true }
    requires state { IsTreeState (symbols R.StarRing category.now) (length state.old.strands) state.old }
    ensures state { IsTreeState (symbols R.StarRing category.now) (length state.old.strands) state.new }
    ensures value { let c = symbols R.StarRing category.now in
        OnOk result (stepped_at c (Exchange k sign) state.old ≡ Some state.new) }
    ensures too_large { let c = symbols R.StarRing category.now in
        IsErrOf result StepFault.TooLarge → stepped_at c (Exchange k sign) state.old ≡ None }
{
    match exchange(category, state, k, sign) {
        Ok(()) => Ok(()),
        Err(fault) => Err(fault),
    }
}

/// The parts of a state by the label of a pair, each over the same strands.
pub(crate) fn split_pair<R: StarRing>(
    alloc: Global,
    category: &Category<R>,
    state: &TreeState<R>,
    k: u8,
) -> Result<Vec<Part<TreeState<R>>>, AllocError>
    requires low { 0 < k }
    requires high { k < length state.now.strands }
    requires pair { is_pair_at state.now.shape k ≡ true }
    requires state { IsTreeState (symbols R.StarRing category.now) (length state.now.strands) state.now }
    ensures parts { IfOk result (λ ps. parts_of (λ s. s) ps.items ≡ parts_below k state.now category.now.rules.count) }
    ensures state { IfOk result (λ ps. All (λ p. IsTreeState (symbols R.StarRing category.now) (length state.now.strands) p.state) ps.items) }
{
    match split(alloc, category, state, k) {
        Ok(parts) => Ok(parts),
        Err(fault) => Err(fault),
    }
}
