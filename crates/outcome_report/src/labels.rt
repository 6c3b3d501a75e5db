//! Labels and numbers in a line.

ghost use Rattle.std.specs.Prelude.{◌∷◌, ◌++◌, []};
ghost use Rattle.line_text.specs.Spelling.{spelled};
ghost use Rattle.line_text.specs.Writing.{Appends, Extends, spaced_on};
ghost use Rattle.cyclo_text.specs.NumberWords.{spelled_number};
ghost use Rattle.outcome_report.specs.Labels.{label_names};

use cyclo_core::Number;
use cyclo_text::write_number;
use fusion_rules::Names;
use line_text::{cut_back, end_line, write_word};
use std::alloc::{AllocError, Global};

/// Appends the names of labels, each behind a space; a number that is no label has no bytes behind its space.
///
/// For want of memory `out` is as it was.
pub fn write_labels(names: &Names, labels: &[u8], out: &mut Vec<u8>) -> Result<(), AllocError>
    ensures { Appends result out.old.items out.new.items (spaced_on (label_names names.now labels.now)) }
{
    let begun = out.len();
    let written = extend_labels(names, labels, out);
    cut_back(written, begun, out)
}

/// The same, where a refused part may be left behind what was there.
#[tactic(auto, using(line_text::proofs::WritingLemmas::still_in_front))]
pub(crate) fn extend_labels(
    names: &Names,
    labels: &[u8],
    out: &mut Vec<u8>,
) -> Result<(), AllocError>
    ensures { Extends result out.old.items out.new.items (spaced_on (label_names names.now labels.now)) }
{
    for label in labels {
        write_word(names.name_or_empty(*label), out)?;
    }
    Ok(())
}

/// Appends a line of a word and labels.
#[tactic(auto, using(line_text::proofs::WritingLemmas::still_in_front, line_text::proofs::WritingLemmas::in_front))]
pub(crate) fn extend_label_line(
    first: &[u8],
    names: &Names,
    labels: &[u8],
    out: &mut Vec<u8>,
) -> Result<(), AllocError>
    ensures { Extends result out.old.items out.new.items (spelled ((first.now ∷ label_names names.now labels.now) ∷ [])) }
{
    out.extend_from_slice(first)?;
    extend_labels(names, labels, out)?;
    end_line(out)?;
    Ok(())
}

/// Appends a number behind a space.
#[tactic(auto, using(line_text::proofs::WritingLemmas::still_in_front))]
pub(crate) fn extend_number(
    alloc: Global,
    number: &Number,
    out: &mut Vec<u8>,
) -> Result<(), AllocError>
    ensures { Extends result out.old.items out.new.items (32 ∷ spelled_number number.now) }
{
    out.push(b' ')?;
    write_number(alloc, number, out)?;
    Ok(())
}
