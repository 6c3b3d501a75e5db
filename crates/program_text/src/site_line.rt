//! Site lines.

ghost use Rattle.std.specs.Prelude.{◌≡◌, ◌≤◌, ◌<◌, length, map, true, IfOk};
ghost use Rattle.line_text.specs.Text.{word_in, words_of};
ghost use Rattle.line_text.specs.Plain.{plain_number_of};
ghost use Rattle.fusion_rules.specs.Names.{is_name};
ghost use Rattle.program_text.specs.declared.fault.ProgramCause.TheVariants.{Site as SiteCause};
ghost use Rattle.program_text.specs.Answers.{Says, Tells, so_far};
ghost use Rattle.program_text.specs.Grammar.{all_apart, are_among, empty_site, given_by, is_apart, may_begin, or_else, site_of_line, sites_given, with_site};
ghost use Rattle.program_text.specs.Program.{site_of};

use crate::draft::Draft;
use crate::fault::{ProgramCause, Stop, unless};
use crate::name::{is_name, own_name};
use crate::plan::Site;
use crate::push::push;
use crate::words::has_words;
use line_text::{Line, plain_number};
use std::alloc::{AllocError, Global};

/// Begins the site of a line `site NAME FIRST LAST`.
pub(crate) fn read_site(alloc: Global, line: &Line, draft: Draft) -> Result<Draft, Stop>
    ensures { Says so_far result (site_of_line (so_far draft) (words_of line.now.text.now)) }
{
    let (first, last) = site_strands(line, &draft)?;
    Ok(begin_site(alloc, line.word_or_empty(1), first, last, draft)?)
}

/// The first and the last strand of a site line that may stand here.
#[tactic(auto, unfolding(crate::specs::Grammar::site_of_line))]
fn site_strands(line: &Line, draft: &Draft) -> Result<(u8, u8), ProgramCause>
    ensures site { Tells (λ strands. with_site (so_far draft.now) (empty_site (word_in (words_of line.now.text.now) 1) strands.0 strands.1)) result
        (site_of_line (so_far draft.now) (words_of line.now.text.now)) }
    ensures name { IfOk result (λ _. is_name (word_in (words_of line.now.text.now) 1) ≡ true) }
    ensures some { IfOk result (λ strands. 1 ≤ strands.0) }
    ensures inside { IfOk result (λ strands. strands.1 ≤ length draft.now.strands.items) }
{
    unless(has_words(line, 4), ProgramCause::Site)?;
    let name = line.word_or_empty(1);
    unless(is_name(name), ProgramCause::Site)?;
    let first = strand(line.word_or_empty(2))?;
    let last = strand(line.word_or_empty(3))?;
    let strands = draft.strands.len() as u32;
    unless(are_among(first, last, strands), ProgramCause::Site)?;
    unless(is_free(draft, name, first, last), ProgramCause::Site)?;
    unless(may_begin(draft), ProgramCause::Site)?;
    Ok((first as u8, last as u8))
}

/// Whether strands, from the first to the last, are some of so many.
fn are_among(first: u32, last: u32, strands: u32) -> bool
    ensures { result ≡ are_among first last strands }
{
    1 <= first && first <= last && last <= strands
}

/// Whether a site line was read, or no command.
fn may_begin(draft: &Draft) -> bool
    ensures { result ≡ may_begin (so_far draft.now) }
{
    draft.has_site || draft.commands == 0
}

fn strand(word: &[u8]) -> Result<u32, ProgramCause>
    ensures { result ≡ or_else (plain_number_of word.now) SiteCause }
{
    plain_number(word).ok_or(ProgramCause::Site)
}

/// Whether no site that has a line has this name or one of these strands.
fn is_free(draft: &Draft, name: &[u8], first: u32, last: u32) -> bool
    ensures { result ≡ all_apart name.now first last (sites_given (so_far draft.now)) }
{
    all_apart(&draft.earlier, name, first, last)
        && (!draft.has_site || is_apart(&draft.current, name, first, last))
}

fn all_apart(sites: &[Site], name: &[u8], first: u32, last: u32) -> bool
    ensures { result ≡ all_apart name.now first last (map site_of sites.now) }
{
    for site in sites {
        if !is_apart(site, name, first, last) {
            return false;
        }
    }
    true
}

fn is_apart(site: &Site, name: &[u8], first: u32, last: u32) -> bool
    ensures { result ≡ is_apart name.now first last (site_of site.now) }
{
    site.name.as_bytes() != name && (last < u32::from(site.first) || u32::from(site.last) < first)
}

/// A site without commands becomes the current one.
fn begin_site(
    alloc: Global,
    name: &[u8],
    first: u8,
    last: u8,
    draft: Draft,
) -> Result<Draft, AllocError>
    requires name { is_name name.now ≡ true }
    requires some { 1 ≤ first }
    requires inside { last ≤ length draft.strands.items }
    ensures { IfOk result (λ next. so_far next ≡ with_site (so_far draft) (empty_site name.now first last)) }
{
    let Draft {
        earlier,
        current,
        has_site,
        outcomes,
        strands,
        commands,
        measured,
    } = draft;
    Ok(Draft {
        earlier: with_current(earlier, current, has_site)?,
        current: Site {
            name: own_name(alloc, name)?,
            first,
            last,
            commands: Vec::new(alloc),
        },
        has_site: true,
        outcomes,
        strands,
        commands,
        measured,
    })
}

/// The sites that have a line.
fn with_current(earlier: Vec<Site>, current: Site, has_site: bool) -> Result<Vec<Site>, AllocError>
    ensures { IfOk result (λ sites. map site_of sites.items ≡ given_by has_site (map site_of earlier.items) (site_of current)) }
{
    let mut sites = earlier;
    if has_site {
        push(&mut sites, current)?;
    }
    Ok(sites)
}
