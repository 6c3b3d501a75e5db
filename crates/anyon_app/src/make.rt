// The command `make N`.
ghost use Rattle.std.specs.Prelude.{◌≡◌, ◌≤◌, Err, IfOk, Ok, length};
ghost use Rattle.category_text.specs.Canonical.{canonical};
ghost use Rattle.category_text.specs.Named.{named_draft};
ghost use Rattle.fusion_rules.specs.Fusion.{fuses};
ghost use Rattle.program_text.specs.Letters.{measurements};
ghost use Rattle.program_text.specs.Program.{program_of};
ghost use Rattle.program_text.specs.WellFormed.{IsProgram, commands_in};
ghost use Rattle.program_text.specs.Written.{written};
ghost use Rattle.category_maker.specs.MadeCategory.{label_names, made_category};
ghost use Rattle.category_maker.specs.MadeProgram.{made_program};
ghost use Rattle.category_maker.specs.MadeSchedule.{made_schedule};
ghost use Rattle.site_schedule.specs.Legal.{IsLegal, IsWellFormed};
ghost use Rattle.program_text.specs.declared.form.TheConstants.{COMMAND_LIMIT};
ghost use Rattle.outcome_rows.specs.Rows.{outcomes_in};
ghost use Rattle.outcome_report.specs.Summary.{summary_of};
ghost use Rattle.anyon_app.specs.Stages.{Gives};
ghost use Rattle.anyon_app.specs.Make.{category_made, made_of, number_of, program_made, report_made, summary_made, turns_made};

use crate::categories::category;
use crate::judge::{Admitted, judge};
use crate::programs::{outcomes, program, schedule};
use crate::refusals::number_line;
use crate::stop::Stop;
use crate::texts::{Kind, within_limit};
use category_maker::{Made, MakeFault, make as make_texts};
use cyclo_core::Cyclo;
use line_text::plain_number;
use outcome_report::{Counts, summary};
use outcome_rows::{Rows, text_commands};
use program_text::{Plan, count_measurements};
use site_schedule::Schedule;
use std::alloc::{AllocError, Global};

/// Makes a category, a program and a schedule of the number that a word says, reads their texts as those of a shelf are
/// read, runs the program by the schedule, and reports a summary. A number that isn't from 2 to 12 is refused.
#[tactic(auto, unfolding(crate::specs::Make::made_of))]
pub fn make(alloc: Global, word: &str) -> Result<Vec<u8>, Stop>
    ensures { Gives (λ report. report.items) result (made_of word.now) }
{
    let numbered = texts_of(alloc, word)?;
    report(alloc, numbered.number, &numbered.texts)
}

// A number from 2 to 12 and its texts.
#[derive(Drop)]
struct Numbered {
    number: u32,
    texts: Made,
}

// The texts of the number that a word says.
fn texts_of(alloc: Global, word: &str) -> Result<Numbered, Stop>
    ensures number { Gives (λ numbered. numbered.number) result (number_of word.now) }
    ensures category { IfOk result (λ numbered. numbered.texts.category.items ≡ canonical (made_category numbered.number)) }
    ensures program { IfOk result (λ numbered. numbered.texts.program.items ≡ written (label_names numbered.number) (made_program numbered.number)) }
    ensures schedule { IfOk result (λ numbered. numbered.texts.schedule.items ≡ made_schedule) }
{
    let Some(number) = plain_number(word.as_bytes()) else {
        return Err(number_line(alloc));
    };
    match make_texts(alloc, number) {
        Ok(texts) => Ok(Numbered { number, texts }),
        Err(MakeFault::Number) => Err(number_line(alloc)),
        Err(MakeFault::Memory) => Err(Stop::Memory),
    }
}

// The report of the run of the made texts.
#[tactic(auto, unfolding(crate::specs::Make::report_made))]
fn report(alloc: Global, number: u32, texts: &Made) -> Result<Vec<u8>, Stop>
    requires category { texts.now.category.items ≡ canonical (made_category number) }
    requires program { texts.now.program.items ≡ written (label_names number) (made_program number) }
    requires schedule { texts.now.schedule.items ≡ made_schedule }
    ensures { Gives (λ report. report.items) result (report_made number) }
{
    let admitted = made_category(alloc, number, &texts.category)?;
    let plan = made_program(alloc, number, &admitted, &texts.program)?;
    let schedule = made_schedule(alloc, &plan, &texts.schedule)?;
    made_summary(alloc, number, &admitted, &plan, &schedule)
}

// The category of the made text, judged by its rules and its laws.
#[tactic(auto, unfolding(crate::specs::Make::category_made))]
fn made_category(alloc: Global, number: u32, text: &[u8]) -> Result<Admitted, Stop>
    requires { text.now ≡ canonical (made_category number) }
    ensures gives { Gives (λ admitted. named_draft admitted.names admitted.category) result (category_made number) }
    ensures counts { IfOk result (λ admitted. length admitted.names ≡ admitted.category.rules.count) }
{
    within_limit(alloc, Kind::Category, text)?;
    let named = category(alloc, Kind::Category, text)?;
    judge(alloc, named)
}

// The program of the made text.
#[tactic(auto, unfolding(crate::specs::Make::program_made))]
fn made_program(alloc: Global, number: u32, admitted: &Admitted, text: &[u8]) -> Result<Plan, Stop>
    requires text { text.now ≡ written (label_names number) (made_program number) }
    requires counts { length admitted.now.names ≡ admitted.now.category.rules.count }
    ensures gives { Gives program_of result (program_made number (named_draft admitted.now.names admitted.now.category)) }
    ensures well_formed { IfOk result (λ plan. IsProgram (fuses admitted.now.category.rules) admitted.now.category.rules.count (program_of plan)) }
{
    within_limit(alloc, Kind::Program, text)?;
    program(alloc, Kind::Program, admitted, text)
}

// The schedule of the made text.
#[tactic(auto, unfolding(crate::specs::Make::turns_made))]
fn made_schedule(alloc: Global, plan: &Plan, text: &[u8]) -> Result<Schedule, Stop>
    requires text { text.now ≡ made_schedule }
    requires well_formed { IsWellFormed (program_of plan.now) }
    ensures gives { Gives (λ schedule. schedule.turns.items) result (turns_made (program_of plan.now)) }
    ensures legal { IfOk result (λ schedule. IsLegal (program_of plan.now) schedule.turns.items) }
{
    within_limit(alloc, Kind::Schedule, text)?;
    schedule(alloc, plan, text)
}

// The summary of a run by the schedule.
fn made_summary(
    alloc: Global,
    number: u32,
    admitted: &Admitted,
    plan: &Plan,
    schedule: &Schedule,
) -> Result<Vec<u8>, Stop>
    requires program { IsProgram (fuses admitted.now.category.rules) admitted.now.category.rules.count (program_of plan.now) }
    requires legal { IsLegal (program_of plan.now) schedule.now.turns.items }
    ensures { Gives (λ report. report.items) result (summary_made number (named_draft admitted.now.names admitted.now.category) (program_of plan.now) schedule.now.turns.items) }
{
    let rows = outcomes(alloc, admitted, plan, schedule)?;
    match summary_text(alloc, number, plan, &rows) {
        Ok(text) => Ok(text),
        Err(_) => Err(Stop::Memory),
    }
}

// The lines of a summary.
fn summary_text(
    alloc: Global,
    number: u32,
    plan: &Plan,
    rows: &Rows<Cyclo>,
) -> Result<Vec<u8>, AllocError>
    requires { length (commands_in (program_of plan.now).sites) ≤ COMMAND_LIMIT }
    ensures { IfOk result (λ text. text.items ≡ summary_of number (length (commands_in (program_of plan.now).sites)) (measurements (commands_in (program_of plan.now).sites)) (outcomes_in rows.now)) }
{
    let commands = text_commands(alloc, plan)?;
    let counts = Counts {
        number,
        commands: commands.len() as u32,
        measurements: count_measurements(&commands),
    };
    let mut out = Vec::new(alloc);
    summary(alloc, counts, rows, &mut out)?;
    Ok(out)
}
