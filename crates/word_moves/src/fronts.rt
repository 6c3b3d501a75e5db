//! Moves at a place counted from 0, each answering whether it was possible. Letters stay where it wasn't.

ghost use Rattle.std.specs.Prelude.{◌≡◌, ◌≤◌, ◌<◌, ◌+◌, ◌^◌, ℕ, length, OnOk, IfOk};
ghost use Rattle.word_moves.specs.Moves.{behind, cancelled, exchanged, front_of, inserted, turned, where_possible};

use crate::moves::BraidMove;
use crate::pairs::{are_far, are_inverse, are_neighbours, opposite, same_letter};
use program_text::{Letter, Sign};
use std::alloc::AllocError;

/// Makes the change of a move.
pub(crate) fn change(
    letters: &mut Vec<Letter>,
    at: usize,
    strands: u8,
    step: BraidMove,
) -> Result<bool, AllocError>
    requires within { at ≤ length letters.old.items }
    requires small { at < 2 ^ 32 }
    ensures moved { IfOk result (λ possible. behind at (front_of strands step) letters.old.items ≡ where_possible possible letters.new.items) }
    ensures few { length letters.new.items ≤ length letters.old.items + 2 }
{
    match step {
        BraidMove::Cancel { .. } => Ok(cancel(letters, at)),
        BraidMove::Insert { gap, sign, .. } => insert(letters, at, strands, gap, sign),
        BraidMove::Far { .. } => Ok(exchange(letters, at)),
        BraidMove::Yb { .. } => Ok(turn(letters, at)),
    }
}

/// Takes away a braid and its inverse.
#[tactic(auto, using(crate::proofs::FrontLemmas::cancel_short, crate::proofs::FrontLemmas::cancel_not, crate::proofs::FrontLemmas::cancel_is))]
fn cancel(letters: &mut Vec<Letter>, at: usize) -> bool
    requires { at < 2 ^ 32 }
    ensures moved { behind at cancelled letters.old.items ≡ where_possible result letters.new.items }
    ensures few { length letters.new.items ≤ length letters.old.items + 2 }
{
    if letters.len() < at + 2 {
        return false;
    }
    if !are_inverse(letters[at], letters[at + 1]) {
        return false;
    }
    letters.remove(at);
    letters.remove(at);
    true
}

/// Puts in a braid and its inverse.
fn insert(
    letters: &mut Vec<Letter>,
    at: usize,
    strands: u8,
    gap: u32,
    sign: Sign,
) -> Result<bool, AllocError>
    requires { at ≤ length letters.old.items }
    ensures moved { IfOk result (λ possible. behind at (inserted strands gap sign) letters.old.items ≡ where_possible possible letters.new.items) }
    ensures few { length letters.new.items ≤ length letters.old.items + 2 }
{
    if gap == 0 || u32::from(strands) <= gap {
        return Ok(false);
    }
    let gap = gap as u8;
    let inverse = Letter::Crossing {
        gap,
        sign: opposite(sign),
    };
    letters.insert(at, inverse)?;
    letters.insert(at, Letter::Crossing { gap, sign })?;
    Ok(true)
}

/// Lets two far braids change places.
#[tactic(auto, using(crate::proofs::FrontLemmas::exchange_short, crate::proofs::FrontLemmas::exchange_not, crate::proofs::FrontLemmas::exchange_is))]
fn exchange(letters: &mut Vec<Letter>, at: usize) -> bool
    requires { at < 2 ^ 32 }
    ensures moved { behind at exchanged letters.old.items ≡ where_possible result letters.new.items }
    ensures few { length letters.new.items ≡ length letters.old.items }
{
    if letters.len() < at + 2 {
        return false;
    }
    let first = letters[at];
    let second = letters[at + 1];
    if !are_far(first, second) {
        return false;
    }
    letters[at] = second;
    letters[at + 1] = first;
    true
}

/// Lets three braids at neighbouring gaps begin at the other gap.
#[tactic(auto, using(crate::proofs::FrontLemmas::turn_short, crate::proofs::FrontLemmas::turn_not, crate::proofs::FrontLemmas::turn_is))]
fn turn(letters: &mut Vec<Letter>, at: usize) -> bool
    requires { at < 2 ^ 32 }
    ensures moved { behind at turned letters.old.items ≡ where_possible result letters.new.items }
    ensures few { length letters.new.items ≡ length letters.old.items }
{
    if letters.len() < at + 3 {
        return false;
    }
    let first = letters[at];
    let second = letters[at + 1];
    if !are_neighbours(first, second) || !same_letter(letters[at + 2], first) {
        return false;
    }
    letters[at] = second;
    letters[at + 1] = first;
    letters[at + 2] = second;
    true
}
