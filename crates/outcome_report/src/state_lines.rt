//! The report of live words on trees.

ghost use Rattle.std.specs.Prelude.{◌≡◌, ◌∷◌, ◌++◌, [], map, OnOk, OnErr};
ghost use Rattle.line_text.specs.Spelling.{spelled};
ghost use Rattle.line_text.specs.Writing.{Extends};
ghost use Rattle.word_runs.specs.Lives.{live_of, lives_of};
ghost use Rattle.outcome_report.specs.TreeReport.{amp_words, head_lines, live_lines, tree_report_of};

use crate::labels::{extend_label_line, extend_labels, extend_number};
use crate::shape_line::extend_shape_line;
use amp_store::Amps;
use cyclo_core::{Cyclo, Number};
use fusion_rules::Names;
use line_text::{cut_back, end_line};
use recouple::TreeState;
use std::alloc::{AllocError, Global};
use word_runs::LiveWord;

/// Appends `strands` and the labels of the strands of the first state, and `shape` and its shape: a strand is its
/// number, counted from 1, and a node is `(L R)`. Then come for each live word, in order, `word` and its labels, and for
/// each of its amplitudes, in the order of keys, `amp`, the labels of the nodes from gap 1 on and the number.
///
/// For want of memory `out` is as it was.
pub fn tree_report(
    alloc: Global,
    names: &Names,
    first: &TreeState<Cyclo>,
    ends: &[LiveWord<TreeState<Cyclo>>],
    out: &mut Vec<u8>,
) -> Result<(), AllocError>
    ensures written { OnOk result (out.new.items ≡ out.old.items ++ tree_report_of names.now first.now (lives_of (λ s. s) ends.now)) }
    ensures unchanged { OnErr result (out.new.items ≡ out.old.items) }
{
    let begun = out.len();
    let written = extend_tree_report(alloc, names, first, ends, out);
    cut_back(written, begun, out)
}

#[tactic(auto, using(line_text::proofs::WritingLemmas::still_in_front, line_text::proofs::WritingLemmas::in_front))]
fn extend_tree_report(
    alloc: Global,
    names: &Names,
    first: &TreeState<Cyclo>,
    ends: &[LiveWord<TreeState<Cyclo>>],
    out: &mut Vec<u8>,
) -> Result<(), AllocError>
    ensures { Extends result out.old.items out.new.items (tree_report_of names.now first.now (lives_of (λ s. s) ends.now)) }
{
    extend_head(names, first, out)?;
    for live in ends {
        extend_live(alloc, names, live, out)?;
    }
    Ok(())
}

/// Appends the lines of the strands and of the shape.
#[tactic(auto, using(line_text::proofs::WritingLemmas::still_in_front, line_text::proofs::WritingLemmas::in_front))]
fn extend_head(names: &Names, first: &TreeState<Cyclo>, out: &mut Vec<u8>) -> Result<(), AllocError>
    ensures { Extends result out.old.items out.new.items (spelled (head_lines names.now first.now)) }
{
    extend_label_line(b"strands", names, first.strands().as_slice(), out)?;
    extend_shape_line(first.shape(), out)?;
    Ok(())
}

/// Appends the lines of a live word.
#[tactic(auto, using(line_text::proofs::WritingLemmas::still_in_front, line_text::proofs::WritingLemmas::in_front))]
fn extend_live(
    alloc: Global,
    names: &Names,
    live: &LiveWord<TreeState<Cyclo>>,
    out: &mut Vec<u8>,
) -> Result<(), AllocError>
    ensures { Extends result out.old.items out.new.items (spelled (live_lines names.now (live_of (λ s. s) live.now))) }
{
    extend_label_line(b"word", names, &live.word, out)?;
    extend_amps(alloc, names, live.state.amps(), out)?;
    Ok(())
}

/// Appends the lines of amplitudes.
#[tactic(auto, using(line_text::proofs::WritingLemmas::still_in_front, line_text::proofs::WritingLemmas::in_front))]
fn extend_amps(
    alloc: Global,
    names: &Names,
    amps: &Amps<Cyclo>,
    out: &mut Vec<u8>,
) -> Result<(), AllocError>
    ensures { Extends result out.old.items out.new.items (spelled (map (amp_words names.now) amps.now)) }
{
    for place in 0..amps.len() {
        let (key, number) = amps.entry(place);
        extend_amp(alloc, names, key.as_slice(), number, out)?;
    }
    Ok(())
}

/// Appends the line of an amplitude.
#[tactic(auto, using(line_text::proofs::WritingLemmas::still_in_front, line_text::proofs::WritingLemmas::in_front))]
fn extend_amp(
    alloc: Global,
    names: &Names,
    key: &[u8],
    number: &Number,
    out: &mut Vec<u8>,
) -> Result<(), AllocError>
    ensures { Extends result out.old.items out.new.items (spelled (amp_words names.now (key.now, number.now) ∷ [])) }
{
    out.extend_from_slice(b"amp")?;
    extend_labels(names, key, out)?;
    extend_number(alloc, number, out)?;
    end_line(out)?;
    Ok(())
}
