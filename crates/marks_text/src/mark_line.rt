//! A line behind the first.

ghost use Rattle.std.specs.Prelude.{◌≡◌, ◌<◌, length, is_some, IfOk, IsTrue, None, OnOk};
ghost use Rattle.line_text.specs.Text.{words_of};
ghost use Rattle.cyclo_core.specs.Ratio.{ring_at};
ghost use Rattle.cyclo_text.specs.NumberWords.{number_of};
ghost use Rattle.symbol_table.specs.Draft.{Marks, given, mark_fault};
ghost use Rattle.category_text.specs.Named.{named_draft};
ghost use Rattle.marks_text.specs.Answers.{Tells};
ghost use Rattle.marks_text.specs.Reading.{kind_of, label, mark_line_of, marked, marks_of, numbered, unset, with_mark};

use crate::fault::MarksCause;
use crate::mark::{Mark, MarkKind};
use crate::words::sized;
use cyclo_core::{Cyclo, Number};
use cyclo_text::read_number;
use fusion_rules::Names;
use line_text::Line;
use std::alloc::AllocError;
use symbol_table::{Draft, MarkFault};

/// The mark of a line. It wasn't set before, and its number is of the draft's ring.
#[tactic(auto, unfolding(crate::specs::Reading::mark_line_of))]
pub(crate) fn read_mark(
    names: &Names,
    line: &Line,
    draft: &Draft<Cyclo>,
) -> Result<Mark, MarksCause>
    requires { length names.now ≡ draft.now.rules.count }
    ensures said { Tells (λ m. marked (named_draft names.now draft.now) m.kind m.label m.value) result (mark_line_of (named_draft names.now draft.now) (words_of line.now.text.now)) }
    ensures below { IfOk result (λ m. m.label < draft.now.rules.count) }
    ensures free { IfOk result (λ m. marks_of (given draft.now) m.kind m.label ≡ None) }
    ensures member { IfOk result (λ m. IsTrue ((ring_at draft.now.ring).member m.value)) }
{
    let kind = kind_of(line.word_or_empty(0))?;
    sized(line)?;
    let label = label(names, line.word_or_empty(1))?;
    unset(draft, kind, label)?;
    let value = number(draft.ring(), line.word_or_empty(2))?;
    Ok(Mark { kind, label, value })
}

/// The kind of mark that a line's first word names.
fn kind_of(word: &[u8]) -> Result<MarkKind, MarksCause>
    ensures { result ≡ kind_of word.now }
{
    if word == b"twist".as_slice() {
        return Ok(MarkKind::Twist);
    }
    if word == b"loop".as_slice() {
        return Ok(MarkKind::Loop);
    }
    Err(MarksCause::Word)
}

#[tactic(auto, using(fusion_rules::proofs::FoundLemmas::label_below))]
fn label(names: &Names, word: &[u8]) -> Result<u8, MarksCause>
    ensures label { result ≡ label names.now word.now }
    ensures below { IfOk result (λ a. a < length names.now) }
{
    names.number(word).ok_or(MarksCause::UnknownLabel)
}

/// Whether no mark of this kind was set for a label.
fn unset(draft: &Draft<Cyclo>, kind: MarkKind, label: u8) -> Result<(), MarksCause>
    ensures { result ≡ unset (marks_of (given draft.now) kind label) }
{
    if is_set(draft, kind, label) {
        return Err(MarksCause::Repeated);
    }
    Ok(())
}

fn is_set(draft: &Draft<Cyclo>, kind: MarkKind, label: u8) -> bool
    ensures { result ≡ is_some (marks_of (given draft.now) kind label) }
{
    match kind {
        MarkKind::Twist => draft.has_twist(label),
        MarkKind::Loop => draft.has_loop(label),
    }
}

fn number(ring: &Cyclo, word: &[u8]) -> Result<Number, MarksCause>
    ensures number { result ≡ numbered (number_of ring.now word.now) }
    ensures member { IfOk result (λ number. IsTrue ((ring_at ring.now).member number)) }
{
    match read_number(ring, word) {
        Ok(number) => Ok(number),
        Err(fault) => Err(MarksCause::Number(fault)),
    }
}

/// Sets a mark that wasn't set before. For want of memory the draft is unchanged.
pub(crate) fn set_mark(draft: &mut Draft<Cyclo>, mark: Mark) -> Result<(), AllocError>
    requires version { draft.old.version ≡ 2 }
    requires label { mark.label < draft.old.rules.count }
    requires member { IsTrue ((ring_at draft.old.ring).member mark.value) }
    requires free { marks_of (given draft.old) mark.kind mark.label ≡ None }
    ensures set { OnOk result (given draft.new ≡ with_mark (given draft.old) mark.kind mark.label mark.value) }
    ensures ring { draft.new.ring ≡ draft.old.ring }
    ensures rules { draft.new.rules ≡ draft.old.rules }
    ensures version { draft.new.version ≡ draft.old.version }
{
    match set_value(draft, mark) {
        Ok(()) => Ok(()),
        Err(_) => Err(AllocError),
    }
}

/// Sets a mark by the setter of its kind.
fn set_value(draft: &mut Draft<Cyclo>, mark: Mark) -> Result<(), MarkFault>
    requires version { draft.old.version ≡ 2 }
    requires label { mark.label < draft.old.rules.count }
    requires member { IsTrue ((ring_at draft.old.ring).member mark.value) }
    ensures set { Marks result (mark_fault (marks_of (given draft.old) mark.kind mark.label)) (given draft.old) (given draft.new) (with_mark (given draft.old) mark.kind mark.label mark.value) }
    ensures ring { draft.new.ring ≡ draft.old.ring }
    ensures rules { draft.new.rules ≡ draft.old.rules }
    ensures version { draft.new.version ≡ draft.old.version }
{
    match mark.kind {
        MarkKind::Twist => draft.set_twist(mark.label, mark.value),
        MarkKind::Loop => draft.set_loop(mark.label, mark.value),
    }
}
