//! The verdict on two programs.

ghost use Rattle.std.specs.Prelude.{◌≡◌, ◌<◌, ◌-◌, ◌^◌, length, IfOk};
ghost use Rattle.program_text.specs.Program.{program_of};
ghost use Rattle.word_moves.specs.Verdicts.{IsWellFormed, first_different, verdict_of};

use crate::letters::moving_letters;
use crate::moves::{Moves, Verdict};
use crate::pages::Pages;
use crate::pairs::same_letter;
use crate::step::make_moves;
use crate::trees::{count_strands, same_tree};
use program_text::{Letter, Plan};
use std::alloc::{AllocError, Global};

/// Whether moves lead from one program to another: over the same labelled start tree, from the letters of the one to those
/// of the other. Raises are no letters.
///
/// `StartDiffers` comes before `NoMove`, and `NoMove` before `EndDiffers`. The letters stand on pages of about a thousand, so
/// the time of a move is that of counting the pages before its place and of shifting the letters of one page.
pub fn linked(alloc: Global, from: &Plan, to: &Plan, moves: &Moves) -> Result<Verdict, AllocError>
    requires from { IsWellFormed (program_of from.now) }
    requires to { IsWellFormed (program_of to.now) }
    requires few { length moves.now.list.items < 2 ^ 30 }
    ensures { IfOk result (λ verdict. verdict ≡ verdict_of (program_of from.now) (program_of to.now) moves.now.list.items) }
{
    if !same_tree(&from.start, &to.start) {
        return Ok(Verdict::StartDiffers);
    }
    let mut letters = Pages::new(alloc, moving_letters(alloc, from)?)?;
    let end = moving_letters(alloc, to)?;
    let strands = count_strands(&from.start);
    if let Some(number) = make_moves(alloc, strands, &moves.list, &mut letters)? {
        return Ok(Verdict::NoMove { number });
    }
    match first_different(&letters.joined(alloc)?, &end) {
        Some(place) => Ok(Verdict::EndDiffers { place }),
        None => Ok(Verdict::Linked),
    }
}

/// The first place, counted from 1, at which letters differ; a missing letter differs.
#[tactic(auto, using(crate::proofs::EndLemmas::left_longer, crate::proofs::EndLemmas::right_longer))]
fn first_different(left: &[Letter], right: &[Letter]) -> Option<u32>
    requires { length left.now < 2 ^ 32 - 1 }
    ensures { result ≡ first_different 1 left.now right.now }
{
    let mut at = 0;
    while at < left.len() {
        if right.len() <= at {
            return Some(at as u32 + 1);
        }
        if !same_letter(left[at], right[at]) {
            return Some(at as u32 + 1);
        }
        at += 1;
    }
    if at < right.len() {
        return Some(at as u32 + 1);
    }
    None
}
