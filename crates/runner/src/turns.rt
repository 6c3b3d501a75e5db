//! The turns of a plan under a schedule.

ghost use Rattle.std.specs.Prelude.{◌≡◌, ◌≤◌, length, IfOk};
ghost use Rattle.program_text.specs.Letters.{measurements};
ghost use Rattle.program_text.specs.Program.{program_of};
ghost use Rattle.program_text.specs.WellFormed.{commands_in};
ghost use Rattle.program_text.specs.declared.form.TheConstants.{COMMAND_LIMIT};
ghost use Rattle.run_laws.specs.Turns.{turns};
ghost use Rattle.site_schedule.specs.Legal.{IsWellFormed, letters_in};

use outcome_rows::text_commands;
use program_text::{Letter, Plan, count_measurements};
use site_schedule::{Schedule, letters_of};
use std::alloc::{AllocError, Global};

/// The letters of the turns, and how many places the words of outcomes have: one for each measurement.
#[derive(Drop)]
pub(crate) struct Turns {
    pub(crate) letters: Vec<Letter>,
    pub(crate) places: u32,
}

/// The turns of a plan under a schedule.
pub(crate) fn turns_of(alloc: Global, plan: &Plan, schedule: &Schedule) -> Result<Turns, AllocError>
    requires well_formed { IsWellFormed (program_of plan.now) }
    requires few { length (commands_in (program_of plan.now).sites) ≤ COMMAND_LIMIT }
    ensures letters { IfOk result (λ made. made.letters.items ≡ turns (letters_in (program_of plan.now)) schedule.now.turns.items) }
    ensures places { IfOk result (λ made. made.places ≡ measurements (commands_in (program_of plan.now).sites)) }
{
    let letters = letters_of(alloc, plan, schedule)?;
    let commands = text_commands(alloc, plan)?;
    let places = count_measurements(commands.as_slice());
    Ok(Turns { letters, places })
}
