//! One turn of a schedule text.

ghost use Rattle.std.specs.Prelude.{◌≡◌, ◌≤◌, ◌++◌, ◌∷◌, [], ℕ, length, map, OnOk, Ok};
ghost use Rattle.program_text.specs.Program.{program_of, site_of};
ghost use Rattle.tree_shapes.specs.declared.limits.TheConstants.{STRAND_LIMIT};
ghost use Rattle.site_schedule.specs.Answers.{IsBehind, Told};
ghost use Rattle.site_schedule.specs.Reading.{site_from, turn_on};

use crate::fault::ScheduleFault;
use crate::marks::{mark_letter, may_follow};
use crate::progress::Progress;
use crate::push::push;
use crate::queues::take_next;
use program_text::{Plan, Site};

/// Takes the turn of the site with this name.
pub(crate) fn read_turn(
    plan: &Plan,
    name: &[u8],
    progress: &mut Progress,
) -> Result<(), ScheduleFault>
    requires sites { length plan.now.sites.items ≤ STRAND_LIMIT }
    requires behind { IsBehind (program_of plan.now) progress.old }
    ensures turn { Told (λ _. progress.new.turns.items) result (turn_on (program_of plan.now) progress.old.turns.items name.now) }
    ensures behind { OnOk result (IsBehind (program_of plan.now) progress.new) }
{
    let turn = progress.turns.len() as u32 + 1;
    let site = site_named(&plan.sites, name).ok_or(ScheduleFault::UnknownSite { turn })?;
    let letter = take_next(&mut progress.queues, site).ok_or(ScheduleFault::TooMany { turn })?;
    if !may_follow(&progress.marks, letter) {
        return Err(ScheduleFault::Early { turn });
    }
    mark_letter(&mut progress.marks, letter)?;
    push(&mut progress.turns, site)?;
    Ok(())
}

/// The number of the first site with this name.
fn site_named(sites: &[Site], name: &[u8]) -> Option<u8>
    requires { length sites.now ≤ STRAND_LIMIT }
    ensures { result ≡ site_from 0 (map site_of sites.now) name.now }
{
    let mut number = 0;
    for site in sites {
        if site.name.as_bytes() == name {
            return Some(number);
        }
        number += 1;
    }
    None
}
