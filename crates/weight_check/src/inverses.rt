//! The laws that H is the inverse of F on both sides.

ghost use Rattle.std.specs.Prelude.{◌≡◌, ◌<◌, All, IfOk, IsTrue, length};
ghost use Rattle.fusion_rules.specs.First.{Answers};
ghost use Rattle.ring_laws.specs.Stated.{Gives};
ghost use Rattle.symbol_table.specs.Draft.{given};
ghost use Rattle.symbol_table.specs.Derived.{HoldsSymbols};
ghost use Rattle.symbol_table.specs.Category.{symbols};
ghost use Rattle.symbol_table.specs.Laws.{at6};
ghost use Rattle.law_events.specs.Sides.{first_in, inverse_f, inverse_f_left, inverse_f_step, inverse_h, inverse_h_left, inverse_h_step};
ghost use Rattle.weight_check.specs.Order.{inverse_laws};

use crate::items::is_identity;
use law_events::check;
use ring_laws::{Overflow, StarRing, add_product, sum_over_labels};
use symbol_table::{Derived, Draft, Event, Kind, Law};

/// The sum with the term F(a,b,c,d;e,f) H(a,b,c,d;f,g) at the index a b c d e g, where both are admissible.
fn add_f_h<R: StarRing>(
    draft: &Draft<R>,
    derived: &Derived<R>,
    at: &[u8],
    f: u8,
    sum: R::Elem,
) -> Result<R::Elem, Overflow>
    requires long { length at.now ≡ 6 }
    requires labels { All (λ t. t < draft.now.rules.count) at.now }
    requires between { f < draft.now.rules.count }
    requires holds { HoldsSymbols (R.ring draft.now.ring) (given draft.now) derived.now }
    requires sum { IsTrue ((R.ring draft.now.ring).member sum) }
    ensures value { Gives result (at6 (inverse_f_step (symbols R.StarRing draft.now)) at.now f sum) }
    ensures member { IfOk result (λ z. IsTrue ((R.ring draft.now.ring).member z)) }
{
    let &[a, b, c, d, e, g] = at else {
        unreachable!()
    };
    let rules = draft.rules();
    if !rules.allows(b, c, f) || !rules.allows(a, f, d) {
        return Ok(sum);
    }
    let over = draft.f_at(a, b, c, d, e, f);
    let back = derived.h_at(draft, a, b, c, d, f, g);
    add_product(draft.ring(), &sum, &over, &back)
}

/// The sum over f of F(a,b,c,d;e,f) H(a,b,c,d;f,g) at the index a b c d e g.
fn sum_f_h<R: StarRing>(
    draft: &Draft<R>,
    derived: &Derived<R>,
    at: &[u8],
) -> Result<R::Elem, Overflow>
    requires long { length at.now ≡ 6 }
    requires labels { All (λ t. t < draft.now.rules.count) at.now }
    requires holds { HoldsSymbols (R.ring draft.now.ring) (given draft.now) derived.now }
    ensures value { Gives result (at6 (inverse_f_left (symbols R.StarRing draft.now)) at.now) }
    ensures member { IfOk result (λ z. IsTrue ((R.ring draft.now.ring).member z)) }
{
    sum_over_labels(draft.ring(), draft.rules().count(), |f, sum| {
        add_f_h(draft, derived, at, f, sum)
    })
}

/// The sum with the term H(a,b,c,d;f,e) F(a,b,c,d;e,g) at the index a b c d f g, where both are admissible.
fn add_h_f<R: StarRing>(
    draft: &Draft<R>,
    derived: &Derived<R>,
    at: &[u8],
    e: u8,
    sum: R::Elem,
) -> Result<R::Elem, Overflow>
    requires long { length at.now ≡ 6 }
    requires labels { All (λ t. t < draft.now.rules.count) at.now }
    requires between { e < draft.now.rules.count }
    requires holds { HoldsSymbols (R.ring draft.now.ring) (given draft.now) derived.now }
    requires sum { IsTrue ((R.ring draft.now.ring).member sum) }
    ensures value { Gives result (at6 (inverse_h_step (symbols R.StarRing draft.now)) at.now e sum) }
    ensures member { IfOk result (λ z. IsTrue ((R.ring draft.now.ring).member z)) }
{
    let &[a, b, c, d, f, g] = at else {
        unreachable!()
    };
    let rules = draft.rules();
    if !rules.allows(a, b, e) || !rules.allows(e, c, d) {
        return Ok(sum);
    }
    let back = derived.h_at(draft, a, b, c, d, f, e);
    let over = draft.f_at(a, b, c, d, e, g);
    add_product(draft.ring(), &sum, &back, &over)
}

/// The sum over e of H(a,b,c,d;f,e) F(a,b,c,d;e,g) at the index a b c d f g.
fn sum_h_f<R: StarRing>(
    draft: &Draft<R>,
    derived: &Derived<R>,
    at: &[u8],
) -> Result<R::Elem, Overflow>
    requires long { length at.now ≡ 6 }
    requires labels { All (λ t. t < draft.now.rules.count) at.now }
    requires holds { HoldsSymbols (R.ring draft.now.ring) (given draft.now) derived.now }
    ensures value { Gives result (at6 (inverse_h_left (symbols R.StarRing draft.now)) at.now) }
    ensures member { IfOk result (λ z. IsTrue ((R.ring draft.now.ring).member z)) }
{
    sum_over_labels(draft.ring(), draft.rules().count(), |e, sum| {
        add_h_f(draft, derived, at, e, sum)
    })
}

/// Whether over by F and back by H is nothing, at an index a b c d e g.
fn inverse_f<R: StarRing>(draft: &Draft<R>, derived: &Derived<R>, at: &[u8]) -> Option<Kind>
    requires long { length at.now ≡ 6 }
    requires labels { All (λ t. t < draft.now.rules.count) at.now }
    requires holds { HoldsSymbols (R.ring draft.now.ring) (given draft.now) derived.now }
    ensures { result ≡ at6 (inverse_f (symbols R.StarRing draft.now)) at.now }
{
    let Ok(sum) = sum_f_h(draft, derived, at) else {
        return Some(Kind::Overflow);
    };
    let &[_, _, _, _, e, g] = at else {
        unreachable!()
    };
    is_identity(draft.ring(), &sum, e, g)
}

/// Whether back by H and over by F is nothing, at an index a b c d f g.
fn inverse_h<R: StarRing>(draft: &Draft<R>, derived: &Derived<R>, at: &[u8]) -> Option<Kind>
    requires long { length at.now ≡ 6 }
    requires labels { All (λ t. t < draft.now.rules.count) at.now }
    requires holds { HoldsSymbols (R.ring draft.now.ring) (given draft.now) derived.now }
    ensures { result ≡ at6 (inverse_h (symbols R.StarRing draft.now)) at.now }
{
    let Ok(sum) = sum_h_f(draft, derived, at) else {
        return Some(Kind::Overflow);
    };
    let &[_, _, _, _, f, g] = at else {
        unreachable!()
    };
    is_identity(draft.ring(), &sum, f, g)
}

/// Whether H is the inverse of F on both sides; else the first event of the first law that isn't met.
pub(crate) fn check_inverses<R: StarRing>(
    draft: &Draft<R>,
    derived: &Derived<R>,
) -> Result<(), Event>
    requires { HoldsSymbols (R.ring draft.now.ring) (given draft.now) derived.now }
    ensures { Answers result (first_in (symbols R.StarRing draft.now) inverse_laws) }
{
    check(draft, Law::InverseF, |at| inverse_f(draft, derived, at))?;
    check(draft, Law::InverseH, |at| inverse_h(draft, derived, at))
}
