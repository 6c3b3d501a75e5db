//! The commands of a site.

ghost use Rattle.std.specs.Prelude.{◌≡◌, ◌≤◌, IfOk};
ghost use Rattle.category_maker.specs.MadeProgram.{command_at, commands_from, turn_command};

use program_text::{Command, Sign};
use std::alloc::{AllocError, Global};

/// How many commands a site has.
pub(crate) const COMMANDS: u32 = 1024;

/// So many commands of the site with this first strand.
#[tactic(auto, unfolding(crate::specs::MadeProgram::commands_from))]
pub(crate) fn commands_from(
    alloc: Global,
    first: u8,
    count: u32,
) -> Result<Vec<Command>, AllocError>
    requires { first ≤ 17 }
    ensures { IfOk result (λ commands. commands.items ≡ commands_from first count) }
{
    let mut commands = Vec::new(alloc);
    for j in 0..count {
        commands.push(command_at(first, j))?;
    }
    Ok(commands)
}

/// Command j of the site with this first strand.
fn command_at(first: u8, j: u32) -> Command
    requires { first ≤ 17 }
    ensures { result ≡ command_at first j }
{
    turn_command(j % 4, first + (j % 7) as u8)
}

fn turn_command(rest: u32, gap: u8) -> Command
    ensures { result ≡ turn_command rest gap }
{
    match rest {
        0 => Command::Braid {
            gap,
            sign: Sign::Plus,
        },
        1 => Command::Raise { gap },
        2 => Command::Braid {
            gap,
            sign: Sign::Minus,
        },
        _ => Command::Measure { gap },
    }
}
