//! The canonical texts of programs.

ghost use Rattle.std.specs.Prelude.{◌≡◌, ◌∷◌, ◌++◌, ◌+◌, ◌<◌, ◌≤◌, ◌^◌, [], length, map, option_map, codes, decimal, IfOk, OnOk, OnErr};
ghost use Rattle.line_text.specs.Spelling.{spelled};
ghost use Rattle.line_text.specs.Writing.{Appends, Extends};
ghost use Rattle.tree_shapes.specs.Labelled.{size};
ghost use Rattle.tree_shapes.specs.Views.{labelled};
ghost use Rattle.tree_shapes.specs.declared.limits.TheConstants.{STRAND_LIMIT};
ghost use Rattle.program_text.specs.declared.form.TheConstants.{COMMAND_LIMIT};
ghost use Rattle.program_text.specs.Canonical.{is_main, sign_word};
ghost use Rattle.program_text.specs.Letters.{measurements};
ghost use Rattle.program_text.specs.Program.{outcome_of, program_of, site_of};
ghost use Rattle.program_text.specs.WellFormed.{commands_in};
ghost use Rattle.program_text.specs.Written.{body_lines, line_words, lines_from, name_at, site_words, sites_from, written};

use crate::gaps::count_strands;
use crate::plan::{Command, Outcome, Plan, Sign, Site};
use crate::writing::{extend_start, sign_word};
use fusion_rules::Names;
use line_text::{cut_back, end_line, write_plain_number, write_word};
use std::alloc::AllocError;

/// Appends the canonical text of a program, its labels written by these names.
///
/// Words are separated by one space, a node of the start is written `(L R):q`, and every site has its line but `main` with
/// all strands where it is the only one. The program has at most 24 strands and 4,096 commands. For want of memory `out`
/// is as it was.
pub fn write_program(names: &Names, plan: &Plan, out: &mut Vec<u8>) -> Result<(), AllocError>
    requires strands { size (labelled plan.now.start) ≤ STRAND_LIMIT }
    requires commands { length (commands_in (program_of plan.now).sites) ≤ COMMAND_LIMIT }
    ensures written { OnOk result (out.new.items ≡ out.old.items ++ written names.now (program_of plan.now)) }
    ensures unchanged { OnErr result (out.new.items ≡ out.old.items) }
{
    let begun = out.len();
    let written = extend_program(names, plan, out);
    cut_back(written, begun, out)
}

#[tactic(auto, using(line_text::proofs::WritingLemmas::still_in_front))]
fn extend_program(names: &Names, plan: &Plan, out: &mut Vec<u8>) -> Result<(), AllocError>
    requires strands { size (labelled plan.now.start) ≤ STRAND_LIMIT }
    requires commands { length (commands_in (program_of plan.now).sites) ≤ COMMAND_LIMIT }
    ensures { Extends result out.old.items out.new.items (written names.now (program_of plan.now)) }
{
    extend_plain(b"program", plan.version, out)?;
    extend_start(names, &plan.start, out)?;
    let strands = count_strands(&plan.start) as u8;
    extend_body(names, &plan.outcomes, strands, &plan.sites, out)?;
    Ok(())
}

/// Appends the sites with their lines; `main` with all strands has none where it is the only one.
fn extend_body(
    names: &Names,
    outcomes: &[Outcome],
    strands: u8,
    sites: &[Site],
    out: &mut Vec<u8>,
) -> Result<u32, AllocError>
    requires { length (commands_in (map site_of sites.now)) ≤ COMMAND_LIMIT }
    ensures { Extends result out.old.items out.new.items (spelled (body_lines names.now (map outcome_of outcomes.now) strands (map site_of sites.now))) }
{
    if let [site] = sites {
        if is_main(site, strands) {
            return extend_commands(names, outcomes, 0, &site.commands, out);
        }
    }
    extend_sites(names, outcomes, sites, out)
}

fn is_main(site: &Site, strands: u8) -> bool
    ensures { result ≡ is_main strands (site_of site.now) }
{
    site.name.as_bytes() == b"main".as_slice() && site.first == 1 && site.last == strands
}

/// Appends sites, each with its line.
#[tactic(auto, using(line_text::proofs::WritingLemmas::still_in_front))]
fn extend_sites(
    names: &Names,
    outcomes: &[Outcome],
    sites: &[Site],
    out: &mut Vec<u8>,
) -> Result<u32, AllocError>
    requires { length (commands_in (map site_of sites.now)) ≤ COMMAND_LIMIT }
    ensures { Extends result out.old.items out.new.items (spelled (sites_from names.now (map outcome_of outcomes.now) 0 (map site_of sites.now))) }
{
    let mut place = 0;
    for site in sites {
        place = extend_site(names, outcomes, place, site, out)?;
    }
    Ok(place)
}

/// Appends a site with its line.
#[tactic(auto, using(line_text::proofs::WritingLemmas::still_in_front))]
fn extend_site(
    names: &Names,
    outcomes: &[Outcome],
    place: u32,
    site: &Site,
    out: &mut Vec<u8>,
) -> Result<u32, AllocError>
    requires { place + length site.now.commands.items ≤ COMMAND_LIMIT }
    ensures text { Extends result out.old.items out.new.items (spelled (site_words (site_of site.now) ∷ lines_from names.now (map outcome_of outcomes.now) place site.now.commands.items)) }
    ensures place { IfOk result (λ next. next ≡ place + measurements site.now.commands.items) }
{
    extend_site_line(site, out)?;
    extend_commands(names, outcomes, place, &site.commands, out)
}

/// Appends the lines of commands before which there are so many measurements, and counts those behind them.
#[tactic(auto, using(line_text::proofs::WritingLemmas::still_in_front))]
fn extend_commands(
    names: &Names,
    outcomes: &[Outcome],
    place: u32,
    commands: &[Command],
    out: &mut Vec<u8>,
) -> Result<u32, AllocError>
    requires { place + length commands.now ≤ COMMAND_LIMIT }
    ensures text { Extends result out.old.items out.new.items (spelled (lines_from names.now (map outcome_of outcomes.now) place commands.now)) }
    ensures place { IfOk result (λ next. next ≡ place + measurements commands.now) }
{
    let mut next = place;
    for command in commands {
        extend_command(names, outcomes, next, *command, out)?;
        next += command.outcomes();
    }
    Ok(next)
}

/// Appends the line of a command.
fn extend_command(
    names: &Names,
    outcomes: &[Outcome],
    place: u32,
    command: Command,
    out: &mut Vec<u8>,
) -> Result<(), AllocError>
    ensures { Extends result out.old.items out.new.items (spelled (line_words names.now (map outcome_of outcomes.now) place command ∷ [])) }
{
    match command {
        Command::Braid { gap, sign } => extend_braid(gap, sign, out),
        Command::Raise { gap } => extend_plain(b"raise", gap, out),
        Command::Measure { gap } => match name_at(outcomes, place) {
            Some(name) => extend_named(gap, name, out),
            None => extend_plain(b"measure", gap, out),
        },
        Command::BraidWhen {
            gap,
            sign,
            place,
            label,
        } => {
            let name = name_at(outcomes, place).unwrap_or("");
            extend_tested(gap, sign, name, names.name_or_empty(label), out)
        }
    }
}

/// Appends a line of a word and a number.
#[tactic(auto, using(line_text::proofs::WritingLemmas::still_in_front))]
fn extend_plain(verb: &[u8], number: u8, out: &mut Vec<u8>) -> Result<(), AllocError>
    ensures { Extends result out.old.items out.new.items (spelled ((verb.now ∷ decimal number ∷ []) ∷ [])) }
{
    out.extend_from_slice(verb)?;
    write_plain_number(u32::from(number), out)?;
    end_line(out)?;
    Ok(())
}

/// Appends `braid K S`.
#[tactic(auto, using(line_text::proofs::WritingLemmas::still_in_front))]
fn extend_braid(gap: u8, sign: Sign, out: &mut Vec<u8>) -> Result<(), AllocError>
    ensures { Extends result out.old.items out.new.items (spelled ((codes "braid" ∷ decimal gap ∷ sign_word sign ∷ []) ∷ [])) }
{
    out.extend_from_slice(b"braid")?;
    write_plain_number(u32::from(gap), out)?;
    write_word(sign_word(sign), out)?;
    end_line(out)?;
    Ok(())
}

/// Appends `measure K as NAME`.
#[tactic(auto, using(line_text::proofs::WritingLemmas::still_in_front))]
fn extend_named(gap: u8, name: &str, out: &mut Vec<u8>) -> Result<(), AllocError>
    ensures { Extends result out.old.items out.new.items (spelled ((codes "measure" ∷ decimal gap ∷ codes "as" ∷ name.now ∷ []) ∷ [])) }
{
    out.extend_from_slice(b"measure")?;
    write_plain_number(u32::from(gap), out)?;
    write_word("as", out)?;
    write_word(name, out)?;
    end_line(out)?;
    Ok(())
}

/// Appends `braid K S when NAME LABEL`.
#[tactic(auto, using(line_text::proofs::WritingLemmas::still_in_front))]
fn extend_tested(
    gap: u8,
    sign: Sign,
    name: &str,
    label: &str,
    out: &mut Vec<u8>,
) -> Result<(), AllocError>
    ensures { Extends result out.old.items out.new.items (spelled ((codes "braid" ∷ decimal gap ∷ sign_word sign ∷ codes "when" ∷ name.now ∷ label.now ∷ []) ∷ [])) }
{
    out.extend_from_slice(b"braid")?;
    write_plain_number(u32::from(gap), out)?;
    write_word(sign_word(sign), out)?;
    write_word("when", out)?;
    write_word(name, out)?;
    write_word(label, out)?;
    end_line(out)?;
    Ok(())
}

/// Appends `site NAME FIRST LAST`.
#[tactic(auto, using(line_text::proofs::WritingLemmas::still_in_front))]
fn extend_site_line(site: &Site, out: &mut Vec<u8>) -> Result<(), AllocError>
    ensures { Extends result out.old.items out.new.items (spelled (site_words (site_of site.now) ∷ [])) }
{
    out.extend_from_slice(b"site")?;
    write_word(&site.name, out)?;
    write_plain_number(u32::from(site.first), out)?;
    write_plain_number(u32::from(site.last), out)?;
    end_line(out)?;
    Ok(())
}

/// The name of the outcome at a place.
fn name_at(outcomes: &[Outcome], place: u32) -> Option<&str>
    ensures { option_map (λ name. name.now) result ≡ name_at (map outcome_of outcomes.now) place }
{
    for outcome in outcomes {
        if outcome.place == place {
            return Some(outcome.name.as_str());
        }
    }
    None
}
