// The commands `run CAT PROG` and `run CAT PROG SCHED`.
ghost use Rattle.std.specs.Prelude.{◌≡◌};
ghost use Rattle.fusion_rules.specs.Fusion.{fuses};
ghost use Rattle.program_text.specs.Program.{program_of};
ghost use Rattle.program_text.specs.WellFormed.{IsProgram};
ghost use Rattle.category_text.specs.Named.{named_draft};
ghost use Rattle.anyon_app.specs.Stages.{Gives, Worked};
ghost use Rattle.site_schedule.specs.Legal.{IsLegal};
ghost use Rattle.anyon_app.specs.Run.{rows_of, run_by_work, run_work};

use crate::judge::Admitted;
use crate::programs::{
    load_admitted, load_program, load_schedule, outcomes, text_schedule, written,
};
use crate::stop::Stop;
use crate::texts::Kind;
use io_ports::Shelf;
use program_text::Plan;
use site_schedule::Schedule;
use std::alloc::Global;

/// Reads a category and judges it, reads a program, runs it on trees in the order of the text and reports
/// its rows. The category is judged before the program is read.
pub fn run<S: Shelf>(
    alloc: Global,
    shelf: &mut S,
    category: &str,
    program: &str,
) -> Result<Vec<u8>, Stop>
    ensures { Worked S.files S.faults shelf.old shelf.new (run_work category.now program.now) result }
{
    let admitted = load_admitted(alloc, shelf, Kind::Category, category)?;
    let plan = load_program(alloc, shelf, Kind::Program, &admitted, program)?;
    let schedule = text_schedule(alloc, &plan)?;
    rows(alloc, &admitted, &plan, &schedule)
}

/// The same by the turns of a schedule, which is read last.
pub fn run_by<S: Shelf>(
    alloc: Global,
    shelf: &mut S,
    category: &str,
    program: &str,
    schedule: &str,
) -> Result<Vec<u8>, Stop>
    ensures { Worked S.files S.faults shelf.old shelf.new (run_by_work category.now program.now schedule.now) result }
{
    let admitted = load_admitted(alloc, shelf, Kind::Category, category)?;
    let plan = load_program(alloc, shelf, Kind::Program, &admitted, program)?;
    let schedule = load_schedule(alloc, shelf, &plan, schedule)?;
    rows(alloc, &admitted, &plan, &schedule)
}

// The report of the rows.
fn rows(
    alloc: Global,
    admitted: &Admitted,
    plan: &Plan,
    schedule: &Schedule,
) -> Result<Vec<u8>, Stop>
    requires program { IsProgram (fuses admitted.now.category.rules) admitted.now.category.rules.count (program_of plan.now) }
    requires legal { IsLegal (program_of plan.now) schedule.now.turns.items }
    ensures { Gives (λ report. report.items) result (rows_of (named_draft admitted.now.names admitted.now.category) (program_of plan.now) schedule.now.turns.items) }
{
    let rows = outcomes(alloc, admitted, plan, schedule)?;
    written(alloc, &admitted.names, &rows)
}
