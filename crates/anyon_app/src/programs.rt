// The texts of a command that runs a program: a category that is admitted, the program and its schedule;
// and the report of its outcomes.
ghost use Rattle.std.specs.Prelude.{◌≡◌, ◌<◌, ◌-◌, ◌^◌, IfOk, Ok, length};
ghost use Rattle.fusion_rules.specs.Fusion.{fuses};
ghost use Rattle.program_text.specs.Program.{program_of};
ghost use Rattle.program_text.specs.WellFormed.{IsProgram};
ghost use Rattle.category_text.specs.Named.{named_draft};
ghost use Rattle.anyon_app.specs.Stages.{Gives, Passes};
ghost use Rattle.outcome_rows.specs.Rows.{outcomes_in};
ghost use Rattle.outcome_report.specs.Report.{report_of};
ghost use Rattle.site_schedule.specs.Legal.{IsLegal, IsWellFormed};
ghost use Rattle.anyon_app.specs.Programs.{admitted_as, outcomes_by, program_of_text, program_work, scheduled_work, turns_of_program, turns_of_text};

use crate::categories::load_category;
use crate::judge::{Admitted, judge};
use crate::refusals::{program_line, schedule_line, stop_line};
use crate::stop::Stop;
use crate::texts::{Kind, text};
use cyclo_core::Cyclo;
use fusion_rules::Names;
use io_ports::Shelf;
use outcome_report::report;
use outcome_rows::Rows;
use program_text::{Plan, ProgramFault, read_program};
use site_schedule::{Schedule, read_schedule, text_order};
use std::alloc::Global;
use word_runs::RunFault;

/// The category of a text of this kind, judged by its rules and its laws.
pub fn load_admitted<S: Shelf>(
    alloc: Global,
    shelf: &mut S,
    kind: Kind,
    name: &str,
) -> Result<Admitted, Stop>
    ensures passes { Passes S.files S.faults shelf.old shelf.new (λ admitted. named_draft admitted.names admitted.category) (admitted_as kind name.now) result }
    ensures counts { IfOk result (λ admitted. length admitted.names ≡ admitted.category.rules.count) }
{
    let named = load_category(alloc, shelf, kind, name)?;
    judge(alloc, named)
}

/// The program of a text of this kind over a category.
pub fn load_program<S: Shelf>(
    alloc: Global,
    shelf: &mut S,
    kind: Kind,
    admitted: &Admitted,
    name: &str,
) -> Result<Plan, Stop>
    requires { length admitted.now.names ≡ admitted.now.category.rules.count }
    ensures passes { Passes S.files S.faults shelf.old shelf.new program_of (program_work kind name.now (named_draft admitted.now.names admitted.now.category)) result }
    ensures well_formed { IfOk result (λ plan. IsProgram (fuses admitted.now.category.rules) admitted.now.category.rules.count (program_of plan)) }
{
    let text = text(alloc, shelf, kind, name)?;
    program(alloc, kind, admitted, &text)
}

/// The program of these bytes.
pub fn program(alloc: Global, kind: Kind, admitted: &Admitted, text: &[u8]) -> Result<Plan, Stop>
    requires short { length text.now < 2 ^ 32 - 1 }
    requires counts { length admitted.now.names ≡ admitted.now.category.rules.count }
    ensures gives { Gives program_of result (program_of_text kind (named_draft admitted.now.names admitted.now.category) text.now) }
    ensures well_formed { IfOk result (λ plan. IsProgram (fuses admitted.now.category.rules) admitted.now.category.rules.count (program_of plan)) }
{
    match read_program(alloc, &admitted.names, admitted.category.rules(), text) {
        Ok(plan) => Ok(plan),
        Err(ProgramFault::At { line, cause }) => Err(program_line(alloc, kind, line, cause)),
        Err(ProgramFault::Memory) => Err(Stop::Memory),
    }
}

/// The schedule of a text for a plan.
pub fn load_schedule<S: Shelf>(
    alloc: Global,
    shelf: &mut S,
    plan: &Plan,
    name: &str,
) -> Result<Schedule, Stop>
    requires { IsWellFormed (program_of plan.now) }
    ensures passes { Passes S.files S.faults shelf.old shelf.new (λ schedule. schedule.turns.items) (scheduled_work name.now (program_of plan.now)) result }
    ensures legal { IfOk result (λ schedule. IsLegal (program_of plan.now) schedule.turns.items) }
{
    let text = text(alloc, shelf, Kind::Schedule, name)?;
    schedule(alloc, plan, &text)
}

/// The schedule of these bytes.
pub fn schedule(alloc: Global, plan: &Plan, text: &[u8]) -> Result<Schedule, Stop>
    requires short { length text.now < 2 ^ 32 - 1 }
    requires well_formed { IsWellFormed (program_of plan.now) }
    ensures gives { Gives (λ schedule. schedule.turns.items) result (turns_of_text (program_of plan.now) text.now) }
    ensures legal { IfOk result (λ schedule. IsLegal (program_of plan.now) schedule.turns.items) }
{
    match read_schedule(alloc, plan, text) {
        Ok(schedule) => Ok(schedule),
        Err(fault) => Err(schedule_line(alloc, &plan.sites, fault)),
    }
}

/// The schedule in the order of the text.
pub fn text_schedule(alloc: Global, plan: &Plan) -> Result<Schedule, Stop>
    requires { IsWellFormed (program_of plan.now) }
    ensures gives { Gives (λ schedule. schedule.turns.items) result (Ok (turns_of_program (program_of plan.now))) }
    ensures legal { IfOk result (λ schedule. IsLegal (program_of plan.now) schedule.turns.items) }
{
    match text_order(alloc, plan) {
        Ok(schedule) => Ok(schedule),
        Err(_) => Err(Stop::Memory),
    }
}

/// The total and the rows of a run on trees by a schedule.
pub fn outcomes(
    alloc: Global,
    admitted: &Admitted,
    plan: &Plan,
    schedule: &Schedule,
) -> Result<Rows<Cyclo>, Stop>
    requires program { IsProgram (fuses admitted.now.category.rules) admitted.now.category.rules.count (program_of plan.now) }
    requires legal { IsLegal (program_of plan.now) schedule.now.turns.items }
    ensures { Gives outcomes_in result (outcomes_by (named_draft admitted.now.names admitted.now.category) (program_of plan.now) schedule.now.turns.items) }
{
    match runner::run(alloc, &admitted.category, plan, schedule) {
        Ok(rows) => Ok(rows),
        Err(RunFault::Stop(stop)) => Err(stop_line(alloc, stop)),
        Err(RunFault::Memory) => Err(Stop::Memory),
    }
}

/// The report of the total and the rows of a run.
pub fn written(alloc: Global, names: &Names, rows: &Rows<Cyclo>) -> Result<Vec<u8>, Stop>
    ensures { Gives (λ report. report.items) result (Ok (report_of names.now (outcomes_in rows.now))) }
{
    let mut out = Vec::new(alloc);
    match report(alloc, names, rows, &mut out) {
        Ok(()) => Ok(out),
        Err(_) => Err(Stop::Memory),
    }
}
