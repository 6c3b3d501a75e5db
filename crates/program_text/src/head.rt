//! The first two lines.

ghost use Rattle.std.specs.Prelude.{◌≡◌, ◌≤◌, length, IfOk};
ghost use Rattle.line_text.specs.Text.{words_of};
ghost use Rattle.fusion_rules.specs.Fusion.{fuses};
ghost use Rattle.tree_shapes.specs.Labelled.{size};
ghost use Rattle.tree_shapes.specs.Views.{labelled};
ghost use Rattle.tree_shapes.specs.declared.limits.TheConstants.{STRAND_LIMIT};
ghost use Rattle.program_text.specs.Answers.{Says, TellsLines, Told};
ghost use Rattle.program_text.specs.Grammar.{head_of, required, start_of, version_of, versioned};

use crate::fault::{ProgramCause, ProgramFault, Refused, Stop, on_line, stop_on_line, unless};
use crate::form::labels_below;
use crate::gaps::{count_strands, first_bad_gap};
use crate::tree_reading::read_tree;
use crate::words::has_words;
use fusion_rules::{Names, Rules};
use line_text::{Line, Lines};
use std::alloc::Global;
use tree_shapes::{STRAND_LIMIT, Tree};

/// Reads the version and the start.
#[tactic(auto, unfolding(crate::specs::Grammar::head_of))]
pub(crate) fn read_head(
    alloc: Global,
    names: &Names,
    rules: &Rules,
    lines: &mut Lines,
) -> Result<(u8, Tree), ProgramFault>
    requires { length names.now ≡ rules.now.count }
    ensures head { Told (λ head. ((head.0, labelled head.1), lines.new.ahead)) result (head_of names.now (fuses rules.now) lines.old) }
    ensures few { IfOk result (λ head. size (labelled head.1) ≤ STRAND_LIMIT) }
{
    let line = required(lines, ProgramCause::Header)?;
    let version = on_line(line.number, read_version(&line))?;
    let line = required(lines, ProgramCause::Start)?;
    let start = stop_on_line(line.number, read_start(alloc, names, rules, &line))?;
    Ok((version, start))
}

/// A line that has to come.
fn required<'a>(lines: &mut Lines<'a>, missing: ProgramCause) -> Result<Line<'a>, Refused>
    ensures line { TellsLines (λ line. (line.number, (words_of line.text.now, lines.new.ahead))) result (required missing lines.old.count lines.old.ahead) }
    ensures count { lines.new.count ≡ lines.old.count }
{
    match lines.next_line()? {
        Some(line) => Ok(line),
        None => Err(Refused {
            line: lines.count() + 1,
            cause: missing,
        }),
    }
}

/// The version of a header.
fn read_version(line: &Line) -> Result<u8, ProgramCause>
    ensures { result ≡ version_of (words_of line.now.text.now) }
{
    let is_header = has_words(line, 2) && line.has_word(0, b"program");
    unless(is_header, ProgramCause::Header)?;
    versioned(line.word_or_empty(1))
}

fn versioned(word: &[u8]) -> Result<u8, ProgramCause>
    ensures { result ≡ versioned word.now }
{
    if word == b"1".as_slice() {
        return Ok(1);
    }
    if word == b"2".as_slice() {
        return Ok(2);
    }
    Err(ProgramCause::Header)
}

/// The tree of a start line.
#[tactic(auto, unfolding(crate::specs::Grammar::start_of))]
fn read_start(alloc: Global, names: &Names, rules: &Rules, line: &Line) -> Result<Tree, Stop>
    requires { length names.now ≡ rules.now.count }
    ensures start { Says labelled result (start_of names.now (fuses rules.now) (words_of line.now.text.now)) }
    ensures few { IfOk result (λ tree. size (labelled tree) ≤ STRAND_LIMIT) }
{
    unless(line.has_word(0, b"start"), ProgramCause::Start)?;
    let tree = read_tree(alloc, names, line)?;
    unless(
        labels_below(names.count(), &tree),
        ProgramCause::UnknownLabel,
    )?;
    let strands = count_strands(&tree);
    unless(
        2 <= strands && strands <= STRAND_LIMIT,
        ProgramCause::Strands,
    )?;
    match first_bad_gap(rules, &tree) {
        Some(gap) => Err(Stop::Cause(ProgramCause::Inadmissible(gap))),
        None => Ok(tree),
    }
}
