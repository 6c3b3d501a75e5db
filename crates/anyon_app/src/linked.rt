// The command `linked CAT PROG PROG MOVES`.
ghost use Rattle.std.specs.Prelude.{◌≡◌, ◌<◌, ◌≤◌, ◌-◌, ◌^◌, IfOk, Ok, length};
ghost use Rattle.program_text.specs.Program.{program_of};
ghost use Rattle.word_moves.specs.Verdicts.{IsWellFormed, verdict_of};
ghost use Rattle.anyon_app.specs.Stages.{Gives, Passes, Worked};
ghost use Rattle.anyon_app.specs.Linked.{linked_report, linked_work, moves_of_text, moves_work};
ghost use Rattle.anyon_app.specs.Refusals.{verdict_line};
ghost use Rattle.anyon_app.specs.Verdicts.{unless};
ghost use Rattle.anyon_app.specs.Work.{text_limit};

use crate::lines::line;
use crate::programs::{load_admitted, load_program};
use crate::refusals::{moves_line, verdict_line};
use crate::stop::Stop;
use crate::texts::{Kind, text};
use io_ports::Shelf;
use program_text::Plan;
use std::alloc::Global;
use word_moves::{Moves, MovesFault, read_moves};

/// Reads a category and judges it, reads two programs over it and moves, and reports whether the moves lead
/// from the letters of the first program to those of the second.
pub fn linked<S: Shelf>(
    alloc: Global,
    shelf: &mut S,
    category: &str,
    first: &str,
    second: &str,
    moves: &str,
) -> Result<Vec<u8>, Stop>
    ensures { Worked S.files S.faults shelf.old shelf.new (linked_work category.now first.now second.now moves.now) result }
{
    let admitted = load_admitted(alloc, shelf, Kind::Category, category)?;
    let from = load_program(alloc, shelf, Kind::Program, &admitted, first)?;
    let to = load_program(alloc, shelf, Kind::SecondProgram, &admitted, second)?;
    let moves = load_moves(alloc, shelf, moves)?;
    judge_moves(alloc, &from, &to, &moves)?;
    linked_line(alloc)
}

// The moves of a text.
fn load_moves<S: Shelf>(alloc: Global, shelf: &mut S, name: &str) -> Result<Moves, Stop>
    ensures passes { Passes S.files S.faults shelf.old shelf.new (λ moves. moves.list.items) (moves_work name.now) result }
    ensures few { IfOk result (λ moves. length moves.list.items ≤ text_limit) }
{
    let text = text(alloc, shelf, Kind::Moves, name)?;
    moves(alloc, &text)
}

// The moves of these bytes.
fn moves(alloc: Global, text: &[u8]) -> Result<Moves, Stop>
    requires { length text.now ≤ text_limit }
    ensures gives { Gives (λ moves. moves.list.items) result (moves_of_text text.now) }
    ensures few { IfOk result (λ moves. length moves.list.items ≤ text_limit) }
{
    match read_moves(alloc, text) {
        Ok(moves) => Ok(moves),
        Err(MovesFault::At { line, cause }) => Err(moves_line(alloc, line, cause)),
        Err(MovesFault::Memory) => Err(Stop::Memory),
    }
}

// Programs that the moves don't link stop the command.
fn judge_moves(alloc: Global, from: &Plan, to: &Plan, moves: &Moves) -> Result<(), Stop>
    requires from { IsWellFormed (program_of from.now) }
    requires to { IsWellFormed (program_of to.now) }
    requires few { length moves.now.list.items ≤ text_limit }
    ensures { Gives (λ _. tt) result (unless (verdict_line (verdict_of (program_of from.now) (program_of to.now) moves.now.list.items))) }
{
    match word_moves::linked(alloc, from, to, moves) {
        Ok(verdict) => verdict_line(alloc, verdict),
        Err(_) => Err(Stop::Memory),
    }
}

// The line that says that programs are linked.
fn linked_line(alloc: Global) -> Result<Vec<u8>, Stop>
    ensures { Gives (λ text. text.items) result (Ok linked_report) }
{
    match line(alloc, "linked", &[]) {
        Ok(line) => Ok(line),
        Err(_) => Err(Stop::Memory),
    }
}
