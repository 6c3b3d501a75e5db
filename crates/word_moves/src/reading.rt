//! Moves texts.

ghost use Rattle.std.specs.Prelude.{◌≡◌, ◌≤◌, ◌<◌, ◌-◌, ◌^◌, length, IfOk};
ghost use Rattle.line_text.specs.Text.{words_of};
ghost use Rattle.word_moves.specs.Answers.{Told};
ghost use Rattle.word_moves.specs.Reading.{moves_of, moves_on, moves_with};

use crate::fault::MovesFault;
use crate::header::read_header;
use crate::move_line::read_move;
use crate::moves::{BraidMove, Moves};
use crate::push::push;
use line_text::{Line, Lines};
use std::alloc::Global;

/// The moves that a text says, or the first line that is refused, with its first cause.
///
/// The first line has the words `moves 1`, and every further line one move: `cancel P`, `insert P K +`, `insert P K -`,
/// `far P` or `yb P`, with a place and a gap. Blank lines and comments are skipped, and counted. A place or a gap may be
/// any plain number: whether a move is possible, the letters decide. `Memory` is free.
pub fn read_moves(alloc: Global, bytes: &[u8]) -> Result<Moves, MovesFault>
    requires { length bytes.now < 2 ^ 32 - 1 }
    ensures moves { Told (λ moves. moves.list.items) result (moves_of bytes.now) }
    ensures few { IfOk result (λ moves. length moves.list.items ≤ length bytes.now) }
{
    read_text(alloc, bytes)
}

/// Reads the whole text.
#[tactic(auto, unfolding(crate::specs::Reading::moves_of))]
fn read_text(alloc: Global, bytes: &[u8]) -> Result<Moves, MovesFault>
    requires { length bytes.now < 2 ^ 32 - 1 }
    ensures { Told (λ moves. moves.list.items) result (moves_of bytes.now) }
{
    let mut lines = Lines::new(bytes);
    read_header(&mut lines)?;
    let mut list = Vec::new(alloc);
    read_lines(&mut lines, &mut list)?;
    Ok(Moves { list })
}

/// Reads the lines behind the first.
fn read_lines(lines: &mut Lines, list: &mut Vec<BraidMove>) -> Result<(), MovesFault>
    ensures { Told (λ _. list.new.items) result (moves_on list.old.items lines.old.ahead) }
{
    while let Some(line) = lines.next_line()? {
        read_line(&line, list)?;
    }
    Ok(())
}

/// Reads a line behind the first.
fn read_line(line: &Line, list: &mut Vec<BraidMove>) -> Result<(), MovesFault>
    ensures { Told (λ _. list.new.items) result (moves_with list.old.items line.now.number (words_of line.now.text.now)) }
{
    match read_move(line) {
        Ok(step) => {
            push(list, step)?;
            Ok(())
        }
        Err(cause) => Err(MovesFault::At {
            line: line.number,
            cause,
        }),
    }
}
