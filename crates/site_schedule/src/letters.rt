ghost use Rattle.std.specs.Prelude.{◌≡◌, ◌++◌, IfOk, OnOk};
ghost use Rattle.std.specs.Option.{option_to_list};
ghost use Rattle.program_text.specs.Program.{program_of};
ghost use Rattle.run_laws.specs.Turns.{after_turn, next_of, turns};
ghost use Rattle.site_schedule.specs.Legal.{IsWellFormed, letters_in};
ghost use Rattle.site_schedule.specs.Queues.{all_left};

use crate::push::push;
use crate::queue::Queue;
use crate::queues::{queues_of, take_next};
use crate::schedule::Schedule;
use program_text::{Letter, Plan};
use std::alloc::{AllocError, Global};

/// The letters of the turns, one a turn for a legal schedule: the next command of the turn's site, with the place of its
/// outcome in the text. A turn of a site that has no command left has no letter.
pub fn letters_of(
    alloc: Global,
    plan: &Plan,
    schedule: &Schedule,
) -> Result<Vec<Letter>, AllocError>
    requires { IsWellFormed (program_of plan.now) }
    ensures { IfOk result (λ letters. letters.items ≡ turns (letters_in (program_of plan.now)) schedule.now.turns.items) }
{
    let mut queues = queues_of(alloc, plan)?;
    let mut letters = Vec::new(alloc);
    for site in &schedule.turns {
        push_next(*site, &mut queues, &mut letters)?;
    }
    Ok(letters)
}

/// Appends the next letter of a site, if it has one.
fn push_next(site: u8, queues: &mut Vec<Queue>, letters: &mut Vec<Letter>) -> Result<(), AllocError>
    ensures letters { OnOk result (letters.new.items ≡ letters.old.items ++ option_to_list (next_of site (all_left queues.old.items))) }
    ensures left { OnOk result (all_left queues.new.items ≡ after_turn site (all_left queues.old.items)) }
{
    if let Some(letter) = take_next(queues, site) {
        push(letters, letter)?;
    }
    Ok(())
}
