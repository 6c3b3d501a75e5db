ghost use Rattle.std.specs.Prelude.{◌≡◌, ◌++◌, ℕ, length, IfOk, OnOk};
ghost use Rattle.program_text.specs.Program.{program_of};
ghost use Rattle.run_laws.specs.Turns.{text_order, times};
ghost use Rattle.site_schedule.specs.Legal.{IsLegal, IsWellFormed, letters_in};

use crate::push::push;
use crate::schedule::Schedule;
use program_text::{Command, Plan};
use std::alloc::{AllocError, Global};

/// Text order: all turns of the first site, then of the second, and so on. It is legal.
pub fn text_order(alloc: Global, plan: &Plan) -> Result<Schedule, AllocError>
    requires { IsWellFormed (program_of plan.now) }
    ensures turns { IfOk result (λ schedule. schedule.turns.items ≡ text_order (letters_in (program_of plan.now))) }
    ensures legal { IfOk result (λ schedule. IsLegal (program_of plan.now) schedule.turns.items) }
{
    let mut turns = Vec::new(alloc);
    let mut number = 0;
    for site in &plan.sites {
        push_turns(number, &site.commands, &mut turns)?;
        number += 1;
    }
    Ok(Schedule { turns })
}

/// Appends a turn of a site for each of its commands.
fn push_turns(number: u8, commands: &[Command], turns: &mut Vec<u8>) -> Result<(), AllocError>
    ensures { OnOk result (turns.new.items ≡ turns.old.items ++ times (length commands.now) number) }
{
    for _command in commands {
        push(turns, number)?;
    }
    Ok(())
}
