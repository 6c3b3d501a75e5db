//! All moves.

ghost use Rattle.std.specs.Prelude.{◌≡◌, ◌≤◌, ◌<◌, ◌+◌, ◌*◌, ◌^◌, length, IfOk, OnOk};
ghost use Rattle.word_moves.specs.Verdicts.{made_until, moves_made};

use crate::moves::BraidMove;
use crate::pages::Pages;
use std::alloc::{AllocError, Global};

/// Makes moves one after another, up to the first that isn't possible, and gives its number counted from 1.
pub(crate) fn make_moves(
    alloc: Global,
    strands: u8,
    moves: &[BraidMove],
    letters: &mut Pages,
) -> Result<Option<u32>, AllocError>
    requires { length moves.now < 2 ^ 30 }
    ensures made { IfOk result (λ stop. moves_made strands 1 moves.now letters.old ≡ made_until stop letters.new) }
    ensures few { OnOk result (length letters.new ≤ length letters.old + 2 * length moves.now) }
{
    let mut number = 0;
    for step in moves {
        number += 1;
        if !letters.make(alloc, strands, *step)? {
            return Ok(Some(number));
        }
    }
    Ok(None)
}
