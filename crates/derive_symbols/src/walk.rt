ghost use Rattle.std.specs.Prelude.{◌≡◌, ◌<◌, ◌≤◌, ◌+◌, All, length};
ghost use Rattle.symbol_table.specs.Index.{AreSixLabels, AreThreeLabels};
ghost use Rattle.symbol_table.specs.Draft.{given};
ghost use Rattle.fusion_rules.specs.Fusion.{fuses};
ghost use Rattle.derive_symbols.specs.Walk.{Fills, goes_on, places};

use crate::WeightFault;
use crate::evaluate::{evaluate_h, evaluate_s};
use fusion_rules::Rules;
use ring_laws::StarRing;
use symbol_table::{Derived, Draft, Event, FIndex, Kind, Labels, Law, VIndex};

/// Which symbol is derived.
#[derive(Clone, Copy, Debug, PartialEq, Eq)]
pub(crate) enum Symbol {
    /// H, at the labels a, b, c, d, f, e.
    H,
    /// S, at the labels a, b, c.
    S,
}

/// A value of an index that doesn't fit.
fn too_large(law: Law, index: Labels) -> WeightFault
    ensures { result ≡ WeightFault.Law (record { kind = Kind.Overflow; law = law; index = index }) }
{
    WeightFault::Law(Event {
        kind: Kind::Overflow,
        law,
        index,
    })
}

/// Puts H(a,b,c,d;f,e) where it is admissible.
fn derive_h<R: StarRing>(
    draft: &Draft<R>,
    derived: &mut Derived<R>,
    index: Labels,
) -> Result<(), WeightFault>
    requires long { length index ≡ 6 }
    requires labels { All (λ t. t < draft.now.rules.count) index }
    ensures { Fills (R.ring draft.now.ring) R.held (given draft.now) result Symbol.H 0 index derived.old
        derived.new }
{
    let labels = index.as_slice();
    let at = FIndex {
        a: labels[0],
        b: labels[1],
        c: labels[2],
        d: labels[3],
        f: labels[4],
        e: labels[5],
    };
    if !at.is_admissible(draft.rules()) {
        return Ok(());
    }
    let Ok(value) = evaluate_h(draft, &at) else {
        return Err(too_large(Law::DeriveH, index));
    };
    match derived.put_h(at, value) {
        Ok(()) => Ok(()),
        Err(_) => Err(WeightFault::Memory),
    }
}

/// Puts S(a,b,c) where it is admissible.
fn derive_s<R: StarRing>(
    draft: &Draft<R>,
    derived: &mut Derived<R>,
    index: Labels,
) -> Result<(), WeightFault>
    requires long { length index ≡ 3 }
    requires labels { All (λ t. t < draft.now.rules.count) index }
    ensures { Fills (R.ring draft.now.ring) R.held (given draft.now) result Symbol.S 0 index derived.old
        derived.new }
{
    let labels = index.as_slice();
    let at = VIndex {
        a: labels[0],
        b: labels[1],
        c: labels[2],
    };
    if !draft.rules().allows(at.a, at.b, at.c) {
        return Ok(());
    }
    let Ok(value) = evaluate_s(draft, &at) else {
        return Err(too_large(Law::DeriveS, index));
    };
    match derived.put_s(at, value) {
        Ok(()) => Ok(()),
        Err(_) => Err(WeightFault::Memory),
    }
}

fn derive_at<R: StarRing>(
    draft: &Draft<R>,
    derived: &mut Derived<R>,
    symbol: Symbol,
    index: Labels,
) -> Result<(), WeightFault>
    requires long { length index ≡ places symbol }
    requires labels { All (λ t. t < draft.now.rules.count) index }
    ensures { Fills (R.ring draft.now.ring) R.held (given draft.now) result symbol 0 index derived.old
        derived.new }
{
    match symbol {
        Symbol::H => derive_h(draft, derived, index),
        Symbol::S => derive_s(draft, derived, index),
    }
}

/// Whether labels can go on to an admissible index, as far as that is known before the last label of H.
fn goes_on(rules: &Rules, symbol: Symbol, index: &[u8]) -> bool
    requires { All (λ t. t < rules.now.count) index.now }
    ensures { result ≡ goes_on (fuses rules.now) symbol index.now }
{
    match (symbol, index) {
        (Symbol::H, [a, b, c, d, f]) => rules.allows(*b, *c, *f) && rules.allows(*a, *f, *d),
        _ => true,
    }
}

/// Puts the symbol at every admissible index that goes on from these labels with so many more.
pub(crate) fn derive_more<R: StarRing>(
    draft: &Draft<R>,
    derived: &mut Derived<R>,
    symbol: Symbol,
    more: u8,
    index: Labels,
) -> Result<(), WeightFault>
    requires long { length index + more ≡ places symbol }
    requires labels { All (λ t. t < draft.now.rules.count) index }
    ensures { Fills (R.ring draft.now.ring) R.held (given draft.now) result symbol more index derived.old
        derived.new }
{
    if !goes_on(draft.rules(), symbol, index.as_slice()) {
        return Ok(());
    }
    if more == 0 {
        return derive_at(draft, derived, symbol, index);
    }
    for t in 0..draft.rules().count() {
        derive_more(draft, derived, symbol, more - 1, index.with(t))?;
    }
    Ok(())
}
