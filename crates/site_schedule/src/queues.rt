//! What sites have left.

ghost use Rattle.std.specs.Prelude.{◌≡◌, ◌≤◌, ◌+◌, ◌∷◌, [], length, map, IfOk, MatchOption};
ghost use Rattle.program_text.specs.Program.{program_of};
ghost use Rattle.program_text.specs.WellFormed.{commands_in};
ghost use Rattle.program_text.specs.declared.form.TheConstants.{COMMAND_LIMIT};
ghost use Rattle.run_laws.specs.Turns.{after_turn, next_of};
ghost use Rattle.site_schedule.specs.Legal.{letters_in};
ghost use Rattle.site_schedule.specs.Queues.{all_left, letters_left};

use crate::push::push;
use crate::queue::Queue;
use program_text::{Letter, Plan, count_measurements};
use std::alloc::{AllocError, Global};

/// What each site has before the first turn.
pub(crate) fn queues_of(alloc: Global, plan: &Plan) -> Result<Vec<Queue>, AllocError>
    requires { length (commands_in (program_of plan.now).sites) ≤ COMMAND_LIMIT }
    ensures { IfOk result (λ queues. all_left queues.items ≡ letters_in (program_of plan.now)) }
{
    let mut queues = Vec::new(alloc);
    let mut place = 0;
    for site in &plan.sites {
        let left = site.commands.as_slice();
        push(&mut queues, Queue { left, place })?;
        place += count_measurements(left);
    }
    Ok(queues)
}

/// The next letter of a site, by its number, which takes its turn. `None` where no such site has a command left.
pub(crate) fn take_next(queues: &mut [Queue], site: u8) -> Option<Letter>
    ensures letter { result ≡ next_of site (all_left queues.old) }
    ensures left { all_left queues.new ≡ after_turn site (all_left queues.old) }
    ensures count { length queues.new ≡ length queues.old }
{
    let site = usize::from(site);
    if queues.len() <= site {
        return None;
    }
    let (letter, later) = split_next(&queues[site])?;
    queues[site] = later;
    Some(letter)
}

/// The next letter of a queue, and the queue behind it.
fn split_next<'a>(queue: &Queue<'a>) -> Option<(Letter, Queue<'a>)>
    ensures { MatchOption result (letters_left queue.now ≡ []) (λ next. letters_left queue.now ≡ next.0 ∷ letters_left next.1) }
{
    match queue.left {
        [command, left @ ..] => {
            let letter = command.letter(queue.place);
            let place = queue.place + command.outcomes();
            Some((letter, Queue { left, place }))
        }
        [] => None,
    }
}
