//! The text of the program.

ghost use Rattle.std.specs.Prelude.{◌≡◌, ◌≤◌, ◌<◌, IfOk};
ghost use Rattle.program_text.specs.Program.{program_of, site_of};
ghost use Rattle.program_text.specs.Written.{written};
ghost use Rattle.category_maker.specs.MadeProgram.{made_program, made_site};

use crate::commands::{COMMANDS, commands_from};
use crate::start::{STRANDS, comb};
use fusion_rules::Names;
use program_text::{Plan, Site, write_program};
use std::alloc::{AllocError, Global};

/// The text of the program of n, its labels written by these names.
pub(crate) fn program_text(alloc: Global, n: u8, names: &Names) -> Result<Vec<u8>, AllocError>
    requires some { 0 < n }
    requires few { n ≤ 12 }
    ensures { IfOk result (λ text. text.items ≡ written names.now (made_program n)) }
{
    let plan = plan(alloc, n)?;
    let mut text = Vec::new(alloc);
    write_program(names, &plan, &mut text)?;
    Ok(text)
}

/// The program of n.
fn plan(alloc: Global, n: u8) -> Result<Plan, AllocError>
    requires some { 0 < n }
    requires few { n ≤ 12 }
    ensures { IfOk result (λ plan. program_of plan ≡ made_program n) }
{
    let mut sites = Vec::new(alloc);
    sites.push(site(alloc, "A", 1)?)?;
    sites.push(site(alloc, "B", 9)?)?;
    Ok(Plan {
        version: 1,
        start: comb(alloc, n, STRANDS - 1)?,
        sites,
        outcomes: Vec::new(alloc),
    })
}

/// A site of eight strands from the first on.
fn site(alloc: Global, name: &str, first: u8) -> Result<Site, AllocError>
    requires { first ≤ 17 }
    ensures { IfOk result (λ site. site_of site ≡ made_site name.now first) }
{
    Ok(Site {
        name: String::from_str(alloc, name)?,
        first,
        last: first + 7,
        commands: commands_from(alloc, first, COMMANDS)?,
    })
}
