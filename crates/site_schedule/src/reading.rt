//! Schedule texts.

ghost use Rattle.std.specs.Prelude.{◌≡◌, ◌≤◌, ◌<◌, ◌-◌, ◌^◌, [], ℕ, length, map, IfOk, OnOk};
ghost use Rattle.line_text.specs.Text.{words_of};
ghost use Rattle.program_text.specs.Program.{program_of};
ghost use Rattle.program_text.specs.WellFormed.{commands_in};
ghost use Rattle.program_text.specs.declared.form.TheConstants.{COMMAND_LIMIT};
ghost use Rattle.tree_shapes.specs.declared.limits.TheConstants.{STRAND_LIMIT};
ghost use Rattle.site_schedule.specs.Answers.{IsBehind, Told};
ghost use Rattle.site_schedule.specs.Legal.{IsLegal, IsWellFormed};
ghost use Rattle.site_schedule.specs.Queues.{all_left, first_left};
ghost use Rattle.site_schedule.specs.Reading.{Word, said_in, schedule_of, turns_on, whole_by};

use crate::fault::ScheduleFault;
use crate::header::read_header;
use crate::progress::{Progress, begin};
use crate::queue::Queue;
use crate::schedule::Schedule;
use crate::turn::read_turn;
use line_text::{Line, Lines};
use program_text::Plan;
use std::alloc::Global;

/// The legal schedule of a text of fewer than 2^32 - 1 bytes, or its first fault.
///
/// The first line has the words `schedule 1`, and every further line has the names of sites, which are the turns. Blank
/// lines and comments are skipped, and counted. A line that is too long or not ASCII is refused before its own turns and
/// behind those of the lines before it; then of each turn in order `UnknownSite`, `TooMany` and `Early`; and at the end
/// `Unfinished`. `Memory` is free.
pub fn read_schedule(alloc: Global, plan: &Plan, bytes: &[u8]) -> Result<Schedule, ScheduleFault>
    requires short { length bytes.now < 2 ^ 32 - 1 }
    requires well_formed { IsWellFormed (program_of plan.now) }
    ensures schedule { Told (λ schedule. schedule.turns.items) result (schedule_of (program_of plan.now) bytes.now) }
    ensures legal { IfOk result (λ schedule. IsLegal (program_of plan.now) schedule.turns.items) }
{
    read_text(alloc, plan, bytes)
}

/// Reads the whole text.
#[tactic(auto, unfolding(crate::specs::Reading::schedule_of))]
fn read_text(alloc: Global, plan: &Plan, bytes: &[u8]) -> Result<Schedule, ScheduleFault>
    requires short { length bytes.now < 2 ^ 32 - 1 }
    requires commands { length (commands_in (program_of plan.now).sites) ≤ COMMAND_LIMIT }
    requires sites { length plan.now.sites.items ≤ STRAND_LIMIT }
    ensures { Told (λ schedule. schedule.turns.items) result (schedule_of (program_of plan.now) bytes.now) }
{
    let mut lines = Lines::new(bytes);
    read_header(&mut lines)?;
    let mut progress = begin(alloc, plan)?;
    read_turns(plan, &mut lines, &mut progress)?;
    finish(progress)
}

/// Reads the lines behind the first.
fn read_turns(plan: &Plan, lines: &mut Lines, progress: &mut Progress) -> Result<(), ScheduleFault>
    requires sites { length plan.now.sites.items ≤ STRAND_LIMIT }
    requires behind { IsBehind (program_of plan.now) progress.old }
    ensures turns { Told (λ _. progress.new.turns.items) result (turns_on (program_of plan.now) progress.old.turns.items (said_in lines.old.ahead)) }
    ensures behind { OnOk result (IsBehind (program_of plan.now) progress.new) }
{
    while let Some(line) = lines.next_line()? {
        read_line(plan, &line, progress)?;
    }
    Ok(())
}

/// Takes the turns of a line.
fn read_line(plan: &Plan, line: &Line, progress: &mut Progress) -> Result<(), ScheduleFault>
    requires sites { length plan.now.sites.items ≤ STRAND_LIMIT }
    requires behind { IsBehind (program_of plan.now) progress.old }
    ensures turns { Told (λ _. progress.new.turns.items) result (turns_on (program_of plan.now) progress.old.turns.items (map Word (words_of line.now.text.now))) }
    ensures behind { OnOk result (IsBehind (program_of plan.now) progress.new) }
{
    let mut place = 0;
    while let Some(name) = line.word(place) {
        read_turn(plan, name, progress)?;
        place += 1;
    }
    Ok(())
}

/// The schedule, where no site has a command left.
fn finish(progress: Progress) -> Result<Schedule, ScheduleFault>
    requires { length progress.queues.items ≤ STRAND_LIMIT }
    ensures { Told (λ schedule. schedule.turns.items) result (whole_by progress.entry.turns.items (first_left 0 (all_left progress.entry.queues.items))) }
{
    match first_unfinished(&progress.queues) {
        Some(site) => Err(ScheduleFault::Unfinished { site }),
        None => Ok(Schedule {
            turns: progress.turns,
        }),
    }
}

/// The first site with a command left.
fn first_unfinished(queues: &[Queue]) -> Option<u8>
    requires { length queues.now ≤ STRAND_LIMIT }
    ensures { result ≡ first_left 0 (all_left queues.now) }
{
    let mut number = 0;
    for queue in queues {
        if !queue.left.is_empty() {
            return Some(number);
        }
        number += 1;
    }
    None
}
