// The command `comb CAT PROG`.
ghost use Rattle.std.specs.Prelude.{◌≡◌, IfOk, true};
ghost use Rattle.fusion_rules.specs.Fusion.{fuses};
ghost use Rattle.tree_shapes.specs.Labelled.{is_left_comb as is_comb};
ghost use Rattle.tree_shapes.specs.Views.{labelled};
ghost use Rattle.program_text.specs.Program.{program_of};
ghost use Rattle.program_text.specs.WellFormed.{IsProgram};
ghost use Rattle.category_text.specs.Named.{named_draft};
ghost use Rattle.anyon_app.specs.Stages.{Gives, Worked};
ghost use Rattle.anyon_app.specs.Comb.{comb_work, rows_of, start_line};
ghost use Rattle.anyon_app.specs.Verdicts.{unless};

use crate::judge::Admitted;
use crate::programs::{load_admitted, load_program, written};
use crate::refusals::{comb_start_line, stop_line};
use crate::stop::Stop;
use crate::texts::Kind;
use comb_run::comb_run;
use io_ports::Shelf;
use program_text::Plan;
use std::alloc::Global;
use tree_shapes::is_left_comb;
use word_runs::RunFault;

/// Reads a category and judges it, reads a program with a left-combed start, runs it on left-combed paths
/// in the order of the text and reports its rows. The category is judged before the program is read.
pub fn comb<S: Shelf>(
    alloc: Global,
    shelf: &mut S,
    category: &str,
    program: &str,
) -> Result<Vec<u8>, Stop>
    ensures { Worked S.files S.faults shelf.old shelf.new (comb_work category.now program.now) result }
{
    let admitted = load_admitted(alloc, shelf, Kind::Category, category)?;
    let plan = load_program(alloc, shelf, Kind::Program, &admitted, program)?;
    comb_start(alloc, &plan)?;
    rows(alloc, &admitted, &plan)
}

// A start that isn't left-combed stops the command.
fn comb_start(alloc: Global, plan: &Plan) -> Result<(), Stop>
    ensures gives { Gives (λ _. tt) result (unless (start_line (program_of plan.now))) }
    ensures left { IfOk result (λ _. is_comb (labelled plan.now.start) ≡ true) }
{
    if !is_left_comb(&plan.start) {
        return Err(comb_start_line(alloc));
    }
    Ok(())
}

// The report of the rows.
fn rows(alloc: Global, admitted: &Admitted, plan: &Plan) -> Result<Vec<u8>, Stop>
    requires program { IsProgram (fuses admitted.now.category.rules) admitted.now.category.rules.count (program_of plan.now) }
    requires left { is_comb (labelled plan.now.start) ≡ true }
    ensures { Gives (λ report. report.items) result (rows_of (named_draft admitted.now.names admitted.now.category) (program_of plan.now)) }
{
    let rows = match comb_run(alloc, &admitted.category, plan) {
        Ok(rows) => rows,
        Err(RunFault::Stop(stop)) => return Err(stop_line(alloc, stop)),
        Err(RunFault::Memory) => return Err(Stop::Memory),
    };
    written(alloc, &admitted.names, &rows)
}
