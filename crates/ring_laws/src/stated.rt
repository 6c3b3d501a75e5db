//! Products and sums in a given order, which stop at the first that doesn't fit.

ghost use Rattle.std.specs.Prelude.{◌≡◌, ◌<◌, ℕ, Option, IfOk, IsTrue};
ghost use Rattle.ring_laws.specs.Stated.{Gives, add_product_at, add_product3_at, product3_at, steps};

use crate::{Overflow, StarRing};

/// The sum and the product of two more members: first the product, then the sum with it.
///
/// Answers [`Overflow`] exactly where one of the two doesn't fit.
pub fn add_product<R: StarRing>(
    ring: &R,
    sum: &R::Elem,
    x: &R::Elem,
    y: &R::Elem,
) -> Result<R::Elem, Overflow>
    requires first { IsTrue ((R.ring ring.now).member sum.now) }
    requires left { IsTrue ((R.ring ring.now).member x.now) }
    requires right { IsTrue ((R.ring ring.now).member y.now) }
    ensures value { Gives result (add_product_at (R.ring ring.now) sum.now x.now y.now) }
    ensures member { IfOk result (λ z. IsTrue ((R.ring ring.now).member z)) }
{
    let product = ring.mul(x, y)?;
    ring.add(sum, &product)
}

/// The product of three members, from the left.
///
/// Answers [`Overflow`] exactly where one of the two products doesn't fit.
pub fn product3<R: StarRing>(
    ring: &R,
    x: &R::Elem,
    y: &R::Elem,
    z: &R::Elem,
) -> Result<R::Elem, Overflow>
    requires x { IsTrue ((R.ring ring.now).member x.now) }
    requires y { IsTrue ((R.ring ring.now).member y.now) }
    requires z { IsTrue ((R.ring ring.now).member z.now) }
    ensures value { Gives result (product3_at (R.ring ring.now) x.now y.now z.now) }
    ensures member { IfOk result (λ v. IsTrue ((R.ring ring.now).member v)) }
{
    let first = ring.mul(x, y)?;
    ring.mul(&first, z)
}

/// A sum with the product of three members.
///
/// Answers [`Overflow`] exactly where a product or the sum doesn't fit.
pub fn add_product3<R: StarRing>(
    ring: &R,
    sum: &R::Elem,
    x: &R::Elem,
    y: &R::Elem,
    z: &R::Elem,
) -> Result<R::Elem, Overflow>
    requires sum { IsTrue ((R.ring ring.now).member sum.now) }
    requires x { IsTrue ((R.ring ring.now).member x.now) }
    requires y { IsTrue ((R.ring ring.now).member y.now) }
    requires z { IsTrue ((R.ring ring.now).member z.now) }
    ensures value { Gives result (add_product3_at (R.ring ring.now) sum.now x.now y.now z.now) }
    ensures member { IfOk result (λ v. IsTrue ((R.ring ring.now).member v)) }
{
    let product = product3(ring, x, y, z)?;
    ring.add(sum, &product)
}

/// The sum over the labels below a count, begun at zero: `add_term` adds the term of one label to what the labels
/// before it gave.
///
/// Answers [`Overflow`] exactly where a step does.
pub fn sum_over_labels<R: StarRing, F: Fn(u8, R::Elem) -> Result<R::Elem, Overflow>>(
    ring: &R,
    count: u8,
    add_term: F,
) -> Result<R::Elem, Overflow>
    requires callable { (t : ℕ) (sum : R.Elem) → t < count → IsTrue ((R.ring ring.now).member sum) → F.pre add_term t sum }
    requires members { (t : ℕ) (sum : R.Elem) (next : _) → F.post add_term t sum next → IfOk next (λ v. IsTrue ((R.ring ring.now).member v)) }
    ensures value { (step : ℕ → R.Elem → Option R.Elem) → ((t : ℕ) (sum : R.Elem) (next : _) → F.post add_term t sum next → Gives next (step t sum))
        → Gives result (steps step 0 count (R.ring ring.now).zero) }
    ensures member { IfOk result (λ v. IsTrue ((R.ring ring.now).member v)) }
{
    let mut sum = ring.zero();
    for t in 0..count {
        sum = add_term(t, sum)?;
    }
    Ok(sum)
}
