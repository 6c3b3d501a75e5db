ghost use Rattle.std.specs.Prelude.{◌≡◌, ◌<◌, ◌&&◌, All, IfOk, IsTrue, length};
ghost use Rattle.ring_laws.specs.Stated.{Gives};
ghost use Rattle.symbol_table.specs.Laws.{at9};
ghost use Rattle.symbol_table.specs.Category.{symbols};
ghost use Rattle.law_events.specs.Sides.{pentagon, pentagon_left, pentagon_right, pentagon_step};

use law_events::compare;
use ring_laws::{Overflow, StarRing, add_product3, sum_over_labels};
use symbol_table::{Draft, Kind};

/// F(x,m,r,z;y,f) F(p,l,f,z;x,q), and 0 where f doesn't fuse with x to z.
fn left<R: StarRing>(draft: &Draft<R>, at: &[u8]) -> Result<R::Elem, Overflow>
    requires long { length at.now ≡ 9 }
    requires labels { All (λ t. t < draft.now.rules.count) at.now }
    ensures value { Gives result
        (at9 (pentagon_left (symbols R.StarRing draft.now)) at.now) }
    ensures member { IfOk result (λ v. IsTrue ((R.ring draft.now.ring).member v)) }
{
    let &[p, l, m, r, x, y, z, f, q] = at else {
        unreachable!()
    };
    if !draft.rules().allows(x, f, z) {
        return Ok(draft.ring().zero());
    }
    let first = draft.f_at(x, m, r, z, y, f);
    let second = draft.f_at(p, l, f, z, x, q);
    draft.ring().mul(&first, &second)
}

/// The sum with the term F(p,l,m,y;x,e) F(p,e,r,z;y,q) F(l,m,r,q;e,f), or the sum alone where that isn't
/// admissible.
fn add_term<R: StarRing>(
    draft: &Draft<R>,
    at: &[u8],
    e: u8,
    sum: R::Elem,
) -> Result<R::Elem, Overflow>
    requires long { length at.now ≡ 9 }
    requires labels { All (λ t. t < draft.now.rules.count) at.now }
    requires label { e < draft.now.rules.count }
    requires sum { IsTrue ((R.ring draft.now.ring).member sum) }
    ensures value { Gives result
        (at9 (pentagon_step (symbols R.StarRing draft.now)) at.now e sum) }
    ensures member { IfOk result (λ v. IsTrue ((R.ring draft.now.ring).member v)) }
{
    let &[p, l, m, r, x, y, z, f, q] = at else {
        unreachable!()
    };
    let rules = draft.rules();
    if !rules.allows(l, m, e) || !rules.allows(p, e, y) || !rules.allows(e, r, q) {
        return Ok(sum);
    }
    let first = draft.f_at(p, l, m, y, x, e);
    let second = draft.f_at(p, e, r, z, y, q);
    let third = draft.f_at(l, m, r, q, e, f);
    add_product3(draft.ring(), &sum, &first, &second, &third)
}

/// The sum of the terms, in the order of the labels.
fn right<R: StarRing>(draft: &Draft<R>, at: &[u8]) -> Result<R::Elem, Overflow>
    requires long { length at.now ≡ 9 }
    requires labels { All (λ t. t < draft.now.rules.count) at.now }
    ensures value { Gives result
        (at9 (pentagon_right (symbols R.StarRing draft.now)) at.now) }
    ensures member { IfOk result (λ v. IsTrue ((R.ring draft.now.ring).member v)) }
{
    sum_over_labels(draft.ring(), draft.rules().count(), |e, sum| {
        add_term(draft, at, e, sum)
    })
}

/// What the pentagon tells at an index: the left side comes before the right one.
pub(crate) fn pentagon<R: StarRing>(draft: &Draft<R>, at: &[u8]) -> Option<Kind>
    requires long { length at.now ≡ 9 }
    requires labels { All (λ t. t < draft.now.rules.count) at.now }
    ensures { result ≡ at9 (pentagon (symbols R.StarRing draft.now)) at.now }
{
    let Ok(left) = left(draft, at) else {
        return Some(Kind::Overflow);
    };
    let Ok(right) = right(draft, at) else {
        return Some(Kind::Overflow);
    };
    compare(draft.ring(), &left, &right)
}
