// The commands `trees CAT PROG` and `trees CAT PROG SCHED`.
ghost use Rattle.std.specs.Prelude.{◌≡◌, IfOk};
ghost use Rattle.fusion_rules.specs.Fusion.{fuses};
ghost use Rattle.program_text.specs.Program.{program_of};
ghost use Rattle.program_text.specs.WellFormed.{IsProgram};
ghost use Rattle.category_text.specs.Named.{named_draft};
ghost use Rattle.word_runs.specs.Lives.{lives_of};
ghost use Rattle.anyon_app.specs.Stages.{Gives, Worked};
ghost use Rattle.site_schedule.specs.Legal.{IsLegal};
ghost use Rattle.anyon_app.specs.Trees.{ends_report, states_of, trees_by_work, trees_work};

use crate::judge::Admitted;
use crate::programs::{load_admitted, load_program, load_schedule, text_schedule};
use crate::refusals::stop_line;
use crate::stop::Stop;
use crate::texts::Kind;
use cyclo_core::Cyclo;
use fusion_rules::Names;
use io_ports::Shelf;
use outcome_report::tree_report;
use program_text::Plan;
use recouple::TreeState;
use site_schedule::Schedule;
use std::alloc::{AllocError, Global};
use word_runs::{LiveWord, RunFault};

/// Reads a category and judges it, reads a program, runs it on trees in the order of the text and reports
/// the live words and their states. The category is judged before the program is read.
pub fn trees<S: Shelf>(
    alloc: Global,
    shelf: &mut S,
    category: &str,
    program: &str,
) -> Result<Vec<u8>, Stop>
    ensures { Worked S.files S.faults shelf.old shelf.new (trees_work category.now program.now) result }
{
    let admitted = load_admitted(alloc, shelf, Kind::Category, category)?;
    let plan = load_program(alloc, shelf, Kind::Program, &admitted, program)?;
    let schedule = text_schedule(alloc, &plan)?;
    states(alloc, &admitted, &plan, &schedule)
}

/// The same by the turns of a schedule, which is read last.
pub fn trees_by<S: Shelf>(
    alloc: Global,
    shelf: &mut S,
    category: &str,
    program: &str,
    schedule: &str,
) -> Result<Vec<u8>, Stop>
    ensures { Worked S.files S.faults shelf.old shelf.new (trees_by_work category.now program.now schedule.now) result }
{
    let admitted = load_admitted(alloc, shelf, Kind::Category, category)?;
    let plan = load_program(alloc, shelf, Kind::Program, &admitted, program)?;
    let schedule = load_schedule(alloc, shelf, &plan, schedule)?;
    states(alloc, &admitted, &plan, &schedule)
}

// The report of the live words.
fn states(
    alloc: Global,
    admitted: &Admitted,
    plan: &Plan,
    schedule: &Schedule,
) -> Result<Vec<u8>, Stop>
    requires program { IsProgram (fuses admitted.now.category.rules) admitted.now.category.rules.count (program_of plan.now) }
    requires legal { IsLegal (program_of plan.now) schedule.now.turns.items }
    ensures { Gives (λ report. report.items) result (states_of (named_draft admitted.now.names admitted.now.category) (program_of plan.now) schedule.now.turns.items) }
{
    let ends = match runner::trees(alloc, &admitted.category, plan, schedule) {
        Ok(ends) => ends,
        Err(RunFault::Stop(stop)) => return Err(stop_line(alloc, stop)),
        Err(RunFault::Memory) => return Err(Stop::Memory),
    };
    match ends_report(alloc, &admitted.names, ends.as_slice()) {
        Ok(report) => Ok(report),
        Err(_) => Err(Stop::Memory),
    }
}

// The report of live words, whose strands and shape are those of the first.
fn ends_report(
    alloc: Global,
    names: &Names,
    ends: &[LiveWord<TreeState<Cyclo>>],
) -> Result<Vec<u8>, AllocError>
    ensures { IfOk result (λ report. report.items ≡ ends_report names.now (lives_of (λ s. s) ends.now)) }
{
    let mut out = Vec::new(alloc);
    if let Some(first) = ends.first() {
        tree_report(alloc, names, &first.state, ends, &mut out)?;
    }
    Ok(out)
}
