//! The engine's call: a well formed program on a left-combed tree.

ghost use Rattle.std.specs.Prelude.{◌≡◌, IfOk, true};
ghost use Rattle.fusion_rules.specs.Fusion.{fuses};
ghost use Rattle.symbol_table.specs.Category.{symbols};
ghost use Rattle.tree_shapes.specs.Labelled.{is_left_comb, size};
ghost use Rattle.tree_shapes.specs.Views.{labelled};
ghost use Rattle.program_text.specs.Program.{program_of};
ghost use Rattle.program_text.specs.WellFormed.{IsAdmittedStart, IsProgram, commands_in};
ghost use Rattle.word_runs.specs.Runs.{Runs};
ghost use Rattle.comb_laws.specs.Plans.{outcomes_of};
ghost use Rattle.outcome_rows.specs.Commands.{AreRunnable};
ghost use Rattle.outcome_rows.specs.Rows.{outcomes_in};
ghost use Rattle.sum_laws.specs.RowSums.{SumsToTotal};
ghost use Rattle.comb_run.specs.Evaluated.{comb_told, evaluation_of};

use crate::engine::CombEngine;
use crate::start::start_state;
use comb_laws::laws::left_comb_start;
use outcome_rows::laws::outcomes;
use outcome_rows::{Rows, text_commands, text_outcomes};
use program_text::{Command, Plan};
use ring_laws::StarRing;
use std::alloc::Global;
use sum_laws::laws::sums;
use symbol_table::Category;
use symbol_table::laws::all_labels;
use tree_shapes::Tree;
use word_runs::RunFault;

/// Runs commands from a left-combed tree.
fn comb_rows<R: StarRing>(
    alloc: Global,
    category: &Category<R>,
    tree: &Tree,
    commands: &[Command],
) -> Result<Rows<R>, RunFault>
    requires start { IsAdmittedStart (fuses category.now.rules) category.now.rules.count (labelled tree.now) }
    requires left { is_left_comb (labelled tree.now) ≡ true }
    requires runnable { AreRunnable (comb_told (symbols R.StarRing category.now) (size (labelled tree.now))) commands.now }
    ensures rows { let c = symbols R.StarRing category.now in
        IfOk result (λ rows. outcomes_in rows ≡ outcomes_of c (labelled tree.now) commands.now) }
    ensures evaluated { let c = symbols R.StarRing category.now in
        Runs outcomes_in result (evaluation_of c (labelled tree.now) commands.now) }
{
    // What the symbols obey, and why the engine may start at one path.
    all_labels(category);
    left_comb_start(category);
    let start = start_state(alloc, category, tree)?;
    let engine = CombEngine {
        category,
        strands: start.strands.len() as u8,
    };
    // What the evaluation means.
    outcomes(&engine);
    text_outcomes(alloc, &engine, category.ring(), commands, start, |state| {
        state.weight(category)
    })
}

/// The total and the rows of a well formed program whose start is left-combed.
///
/// The start has 2 to [`STRAND_LIMIT`](tree_shapes::STRAND_LIMIT) strands, and there are at most
/// [`COMMAND_LIMIT`](program_text::COMMAND_LIMIT) commands, in the order of the text; a raise changes nothing.
/// `Overflow` comes exactly at the turn of the first item that doesn't fit: turn 0 evaluates the total, each command is a
/// turn, and the turn after the last one evaluates the weights of the words. `Branches` and `Wide` come exactly where the
/// words or the amplitudes pass the limits of `word_runs`. The conventions are those of Kitaev 2006, Appendix E.
pub fn comb_run<R: StarRing>(
    alloc: Global,
    category: &Category<R>,
    plan: &Plan,
) -> Result<Rows<R>, RunFault>
    requires program { IsProgram (fuses category.now.rules) category.now.rules.count (program_of plan.now) }
    requires left { is_left_comb (labelled plan.now.start) ≡ true }
    // The total and the rows are those of the comb operators on the start's path amplitudes.
    ensures rows { let c = symbols R.StarRing category.now in
        IfOk result (λ rows. outcomes_in rows ≡ outcomes_of c (labelled plan.now.start) (commands_in (program_of plan.now).sites)) }
    // It stops exactly where the stated evaluation does.
    ensures evaluated { let c = symbols R.StarRing category.now in
        Runs outcomes_in result (evaluation_of c (labelled plan.now.start) (commands_in (program_of plan.now).sites)) }
    // The weights of the rows sum to the total, as ring values.
    ensures sums { IfOk result (λ rows. SumsToTotal (symbols R.StarRing category.now).ring (outcomes_in rows)) }
{
    // What the rows sum to.
    sums(category);
    let commands = text_commands(alloc, plan)?;
    comb_rows(alloc, category, &plan.start, commands.as_slice())
}
