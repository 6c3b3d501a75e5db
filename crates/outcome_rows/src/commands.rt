//! The commands of a plan.

ghost use Rattle.std.specs.Prelude.{◌≡◌, IfOk, map};
ghost use Rattle.program_text.specs.Program.{program_of, site_of};
ghost use Rattle.program_text.specs.WellFormed.{commands_in};

use program_text::{Command, Plan, Site};
use std::alloc::{AllocError, Global};

/// The commands of these sites, one site after another.
fn site_commands(alloc: Global, sites: &[Site]) -> Result<Vec<Command>, AllocError>
    ensures { IfOk result (λ commands. commands.items ≡ commands_in (map site_of sites.now)) }
{
    let mut commands = Vec::new(alloc);
    for site in sites {
        commands.extend_from_slice(site.commands.as_slice())?;
    }
    Ok(commands)
}

/// The commands of all sites of a plan, in the order of the text.
///
/// Only memory can fail.
pub fn text_commands(alloc: Global, plan: &Plan) -> Result<Vec<Command>, AllocError>
    ensures { IfOk result (λ commands. commands.items ≡ commands_in (program_of plan.now).sites) }
{
    site_commands(alloc, plan.sites.as_slice())
}
