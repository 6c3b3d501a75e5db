ghost use Rattle.std.specs.Prelude.{◌≡◌, ◌<◌, ◌≤◌, ◌+◌, ℕ, if◌then◌else◌, length, None, Some, Err, IfOk, IsOk, IsTrue, OnOk};
ghost use Rattle.line_text.specs.Text.{words_of};
ghost use Rattle.cyclo_core.specs.Ratio.{ring_at};
ghost use Rattle.cyclo_text.specs.NumberWords.{number_of};
ghost use Rattle.symbol_table.specs.Index.{AreSixLabels, AreThreeLabels};
ghost use Rattle.symbol_table.specs.declared.draft.SetFault.TheVariants.{Repeated};
ghost use Rattle.symbol_table.specs.Draft.{Sets, given};
ghost use Rattle.category_text.specs.Named.{has_symbol, named_draft, symbol_fault, with_symbol};
ghost use Rattle.category_text.specs.Reading.{known, label, labels_at, kind_of, may_set, number_place, numbered, six_labels, symbol_at, symbol_of, with_value};
ghost use Rattle.category_text.specs.Answers.{as_set_fault, Says, SymbolBelow, Tells, setting};

use crate::fault::{CategoryCause, Stop};
use crate::kind::{Kind, Symbol};
use crate::words::sized;
use cyclo_core::{Cyclo, Number};
use cyclo_text::read_number;
use fusion_rules::Names;
use line_text::Line;
use std::alloc::AllocError;
use symbol_table::{Draft, FIndex, MarkFault, SetFault, VIndex};

/// The kind that a line's first word names.
pub(crate) fn kind_of(word: &[u8]) -> Option<Kind>
    ensures { result ≡ kind_of word.now }
{
    if word == b"f".as_slice() {
        return Some(Kind::F);
    }
    if word == b"r".as_slice() {
        return Some(Kind::R);
    }
    if word == b"w".as_slice() {
        return Some(Kind::W);
    }
    if word == b"v".as_slice() {
        return Some(Kind::V);
    }
    if word == b"twist".as_slice() {
        return Some(Kind::Twist);
    }
    if word == b"loop".as_slice() {
        return Some(Kind::Loop);
    }
    None
}

/// Reads a symbol line into the draft. Want of memory refuses only a line that is in order.
pub(crate) fn read_symbol(
    names: &Names,
    line: &Line,
    kind: Kind,
    draft: &mut Draft<Cyclo>,
) -> Result<(), Stop>
    requires { length names.now ≡ draft.old.rules.count }
    ensures said { Says (λ _. setting names.now draft.new) result (symbol_of kind (named_draft names.now draft.old) (words_of line.now.text.now)) }
    ensures memory { result ≡ Err Stop.Memory → IsOk (symbol_of kind (named_draft names.now draft.old) (words_of line.now.text.now)) }
    ensures rules { draft.new.rules ≡ draft.old.rules }
{
    let (at, value) = read_value(names, line, kind, draft)?;
    set_symbol(draft, at, value)?;
    Ok(())
}

/// The symbol of a symbol line, which may be set, and its number.
#[tactic(auto, unfolding(crate::specs::Reading::symbol_of))]
fn read_value(
    names: &Names,
    line: &Line,
    kind: Kind,
    draft: &Draft<Cyclo>,
) -> Result<(Symbol, Number), CategoryCause>
    requires { length names.now ≡ draft.now.rules.count }
    ensures said { Tells (λ read. with_value (named_draft names.now draft.now) read.0 read.1) result (symbol_of kind (named_draft names.now draft.now) (words_of line.now.text.now)) }
    ensures below { IfOk result (λ read. SymbolBelow draft.now.rules.count read.0) }
    ensures free { IfOk result (λ read. symbol_fault (given draft.now) read.0 ≡ None) }
    ensures member { IfOk result (λ read. IsTrue ((ring_at draft.now.ring).member read.1)) }
    ensures version { IfOk result (λ read. IsTrue (has_symbol draft.now.version read.0)) }
{
    known(draft.version(), kind)?;
    let place = number_place(kind);
    sized(line, place + 1)?;
    let at = symbol_at(names, line, kind)?;
    may_set(draft, &at)?;
    let value = number(draft.ring(), line.word_or_empty(place))?;
    Ok((at, value))
}

/// Whether a version has lines of a kind: those of marks stand in version 2 alone.
fn known(version: u8, kind: Kind) -> Result<(), CategoryCause>
    ensures { result ≡ known version kind }
{
    match kind {
        Kind::Twist | Kind::Loop if version != 2 => Err(CategoryCause::Word),
        _ => Ok(()),
    }
}

/// Whether a symbol of labels below the count may be set.
fn may_set(draft: &Draft<Cyclo>, at: &Symbol) -> Result<(), CategoryCause>
    requires { SymbolBelow draft.now.rules.count at.now }
    ensures { result ≡ may_set (symbol_fault (given draft.now) at.now) }
{
    match fault_of(draft, at) {
        None => Ok(()),
        Some(SetFault::NotAdmissible) => Err(CategoryCause::NotAdmissible),
        Some(_) => Err(CategoryCause::Repeated),
    }
}

fn fault_of(draft: &Draft<Cyclo>, at: &Symbol) -> Option<SetFault>
    requires { SymbolBelow draft.now.rules.count at.now }
    ensures { result ≡ symbol_fault (given draft.now) at.now }
{
    match at {
        Symbol::OfF(at) => draft.f_fault(at),
        Symbol::OfR(at) => draft.r_fault(at),
        Symbol::OfW(at) => draft.w_fault(at),
        Symbol::OfV(at) => draft.v_fault(at),
        Symbol::OfTwist(a) => repeated(draft.has_twist(*a)),
        Symbol::OfLoop(a) => repeated(draft.has_loop(*a)),
    }
}

/// Why a mark isn't set.
fn repeated(is_set: bool) -> Option<SetFault>
    ensures { result ≡ (if is_set then Some Repeated else None) }
{
    if is_set {
        Some(SetFault::Repeated)
    } else {
        None
    }
}

fn number(ring: &Cyclo, word: &[u8]) -> Result<Number, CategoryCause>
    ensures number { result ≡ numbered (number_of ring.now word.now) }
    ensures member { IfOk result (λ number. IsTrue ((ring_at ring.now).member number)) }
{
    match read_number(ring, word) {
        Ok(number) => Ok(number),
        Err(fault) => Err(CategoryCause::Number(fault)),
    }
}

fn number_place(kind: Kind) -> usize
    ensures value { result ≡ number_place kind }
    ensures small { result ≤ 7 }
{
    match kind {
        Kind::F => 7,
        Kind::R => 4,
        Kind::W => 4,
        Kind::V => 4,
        Kind::Twist => 2,
        Kind::Loop => 2,
    }
}

fn symbol_at(names: &Names, line: &Line, kind: Kind) -> Result<Symbol, CategoryCause>
    ensures symbol { result ≡ symbol_at kind names.now (words_of line.now.text.now) }
    ensures below { IfOk result (SymbolBelow (length names.now)) }
{
    match kind {
        Kind::F => Ok(Symbol::OfF(six_labels(names, line)?)),
        Kind::R => Ok(Symbol::OfR(labels_at(names, line, 1)?)),
        Kind::W => Ok(Symbol::OfW(labels_at(names, line, 1)?)),
        Kind::V => Ok(Symbol::OfV(labels_at(names, line, 1)?)),
        Kind::Twist => Ok(Symbol::OfTwist(label(names, line.word_or_empty(1))?)),
        Kind::Loop => Ok(Symbol::OfLoop(label(names, line.word_or_empty(1))?)),
    }
}

/// The six labels from the second word on.
fn six_labels(names: &Names, line: &Line) -> Result<FIndex, CategoryCause>
    ensures labels { result ≡ six_labels names.now (words_of line.now.text.now) }
    ensures below { IfOk result (λ at. AreSixLabels (length names.now) at.a at.b at.c at.d at.e at.f) }
{
    let first = labels_at(names, line, 1)?;
    let second = labels_at(names, line, 4)?;
    Ok(FIndex {
        a: first.a,
        b: first.b,
        c: first.c,
        d: second.a,
        e: second.b,
        f: second.c,
    })
}

/// The three labels from a place on.
pub(crate) fn labels_at(names: &Names, line: &Line, place: usize) -> Result<VIndex, CategoryCause>
    requires { place ≤ 4 }
    ensures labels { result ≡ labels_at names.now (words_of line.now.text.now) place }
    ensures below { IfOk result (λ at. AreThreeLabels (length names.now) at.a at.b at.c) }
{
    let a = label(names, line.word_or_empty(place))?;
    let b = label(names, line.word_or_empty(place + 1))?;
    let c = label(names, line.word_or_empty(place + 2))?;
    Ok(VIndex { a, b, c })
}

#[tactic(auto, using(fusion_rules::proofs::FoundLemmas::label_below))]
fn label(names: &Names, word: &[u8]) -> Result<u8, CategoryCause>
    ensures label { result ≡ label names.now word.now }
    ensures below { IfOk result (λ a. a < length names.now) }
{
    names.number(word).ok_or(CategoryCause::UnknownLabel)
}

/// Sets a symbol that may be set.
fn set_symbol(draft: &mut Draft<Cyclo>, at: Symbol, value: Number) -> Result<(), AllocError>
    requires version { IsTrue (has_symbol draft.old.version at) }
    requires labels { SymbolBelow draft.old.rules.count at }
    requires member { IsTrue ((ring_at draft.old.ring).member value) }
    requires free { symbol_fault (given draft.old) at ≡ None }
    ensures set { OnOk result (given draft.new ≡ with_symbol (given draft.old) at value) }
    ensures ring { draft.new.ring ≡ draft.old.ring }
    ensures rules { draft.new.rules ≡ draft.old.rules }
{
    match set_value(draft, at, value) {
        Ok(()) => Ok(()),
        Err(_) => Err(AllocError),
    }
}

/// Sets a symbol by the setter of its kind.
fn set_value(draft: &mut Draft<Cyclo>, at: Symbol, value: Number) -> Result<(), SetFault>
    requires version { IsTrue (has_symbol draft.old.version at) }
    requires labels { SymbolBelow draft.old.rules.count at }
    requires member { IsTrue ((ring_at draft.old.ring).member value) }
    ensures set { Sets result (symbol_fault (given draft.old) at) (given draft.old) (given draft.new) (with_symbol (given draft.old) at value) }
    ensures ring { draft.new.ring ≡ draft.old.ring }
    ensures rules { draft.new.rules ≡ draft.old.rules }
{
    match at {
        Symbol::OfF(at) => draft.set_f(at, value),
        Symbol::OfR(at) => draft.set_r(at, value),
        Symbol::OfW(at) => draft.set_w(at, value),
        Symbol::OfV(at) => draft.set_v(at, value),
        Symbol::OfTwist(a) => as_set_fault(draft.set_twist(a, value)),
        Symbol::OfLoop(a) => as_set_fault(draft.set_loop(a, value)),
    }
}

/// What a setter of marks answers, as one of symbols would.
fn as_set_fault(set: Result<(), MarkFault>) -> Result<(), SetFault>
    ensures { result ≡ as_set_fault set }
{
    match set {
        Ok(()) => Ok(()),
        Err(MarkFault::Repeated) => Err(SetFault::Repeated),
        Err(MarkFault::Memory) => Err(SetFault::Memory),
    }
}
