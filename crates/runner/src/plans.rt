//! Runs of plans under a schedule.

ghost use Rattle.std.specs.Prelude.{◌≡◌, ◌<◌, length, IfOk};
ghost use Rattle.std.specs.List.{AllByRecursion};
ghost use Rattle.fusion_rules.specs.Fusion.{fuses};
ghost use Rattle.symbol_table.specs.Category.{symbols};
ghost use Rattle.tree_shapes.specs.Labelled.{size};
ghost use Rattle.tree_shapes.specs.Views.{labelled};
ghost use Rattle.program_text.specs.Program.{program_of};
ghost use Rattle.program_text.specs.WellFormed.{IsProgram, commands_in};
ghost use Rattle.word_runs.specs.Runs.{Runs};
ghost use Rattle.word_runs.specs.Lives.{lives_of};
ghost use Rattle.comb_laws.specs.Plans.{outcomes_of};
ghost use Rattle.site_schedule.specs.Legal.{IsLegal};
ghost use Rattle.outcome_rows.specs.Ends.{StopsAs};
ghost use Rattle.outcome_rows.specs.Rows.{outcomes_in};
ghost use Rattle.sum_laws.specs.RowSums.{SumsToTotal};
ghost use Rattle.runner.specs.Evaluated.{scheduled_ends, scheduled_weights};
ghost use Rattle.runner.specs.Outcomes.{AreWordsOf};
ghost use Rattle.runner.specs.Trees.{IsTreeState};

use crate::ends::{begin, ends_from, rows_from};
use crate::laws::rows;
use crate::turns::turns_of;
use outcome_rows::Rows;
use program_text::Plan;
use recouple::TreeState;
use ring_laws::StarRing;
use site_schedule::Schedule;
use std::alloc::Global;
use sum_laws::laws::sums;
use symbol_table::Category;
use word_runs::{LiveWord, RunFault};

/// The total and the rows of a plan, run on trees from its start under a legal schedule: the weight of the start, and each word
/// of outcomes whose weight isn't zero, with its weight, in the order of lists of labels.
///
/// The plan is well formed for the category's rules. Sites take their turns in the order of the schedule. `Overflow` comes
/// exactly at the turn of the first item that doesn't fit: turn 0 evaluates the total, each command is a turn, and the turn
/// after the last one evaluates the weights of the words. `Branches` and `Wide` come exactly where the words or the amplitudes
/// pass the limits of `word_runs`.
pub fn run<R: StarRing>(
    alloc: Global,
    category: &Category<R>,
    plan: &Plan,
    schedule: &Schedule,
) -> Result<Rows<R>, RunFault>
    requires program { IsProgram (fuses category.now.rules) category.now.rules.count (program_of plan.now) }
    requires legal { IsLegal (program_of plan.now) schedule.now.turns.items }
    // The total and the rows are those of the comb operators in the order of the text, whatever the schedule and whatever trees
    // the run went through.
    ensures rows { let c = symbols R.StarRing category.now in
        IfOk result (λ rows. outcomes_in rows ≡ outcomes_of c (labelled plan.now.start) (commands_in (program_of plan.now).sites)) }
    // It stops exactly where the stated evaluation does.
    ensures stated { let c = symbols R.StarRing category.now in
        StopsAs result (scheduled_weights c (program_of plan.now) schedule.now.turns.items) }
    // The weights of the rows sum to the total, as ring values.
    ensures sums { IfOk result (λ rows. SumsToTotal (symbols R.StarRing category.now).ring (outcomes_in rows)) }
{
    // What the rows mean, and what they sum to.
    rows(category);
    sums(category);
    let turns = turns_of(alloc, plan, schedule)?;
    let start = begin(alloc, category, &plan.start)?;
    rows_from(alloc, category, start, &turns)
}

/// The live words at the end of a plan, run on trees from its start under a legal schedule, in the order of lists of labels: one
/// label for each measurement in text order, and the state of the word. No weight is evaluated.
///
/// The plan is well formed for the category's rules. Sites take their turns in the order of the schedule. The run stops exactly
/// where the stated evaluation does, as [`run`] but for the weights at turn 0 and after the last turn.
pub fn trees<R: StarRing>(
    alloc: Global,
    category: &Category<R>,
    plan: &Plan,
    schedule: &Schedule,
) -> Result<Vec<LiveWord<TreeState<R>>>, RunFault>
    requires program { IsProgram (fuses category.now.rules) category.now.rules.count (program_of plan.now) }
    requires legal { IsLegal (program_of plan.now) schedule.now.turns.items }
    // Every state is one of the category, over as many strands as the start.
    ensures states { IfOk result (λ ends. AllByRecursion (λ l. IsTreeState (symbols R.StarRing category.now) (size (labelled plan.now.start)) l.state) ends.items) }
    // Each stands for the vector of its word by the comb operators in the order of the text, and every word whose vector isn't
    // zero is there.
    ensures words { let c = symbols R.StarRing category.now in IfOk result (λ ends. AreWordsOf c (program_of plan.now) (lives_of (λ s. s) ends.items)) }
    // There is at least one.
    ensures some { IfOk result (λ ends. 0 < length ends.items) }
    // It stops exactly where the stated evaluation does.
    ensures stated { let c = symbols R.StarRing category.now in
        Runs (λ ends. lives_of (λ s. s) ends.items) result (scheduled_ends c (program_of plan.now) schedule.now.turns.items) }
{
    // In which order the live words stand.
    rows(category);
    let turns = turns_of(alloc, plan, schedule)?;
    let start = begin(alloc, category, &plan.start)?;
    ends_from(alloc, category, start, &turns)
}
