//! Laws of single values, over ring values alone.

ghost use Rattle.std.specs.Prelude.{◌≡◌, ◌==◌, if◌then◌else◌, IfOk, IsTrue, Some};
ghost use Rattle.ring_laws.specs.Stated.{Gives, conjugate_at, product_at};
ghost use Rattle.law_events.specs.Sides.{judged};
ghost use Rattle.weight_check.specs.Items.{norm_at};

use law_events::compare;
use ring_laws::{Overflow, StarRing, product3};
use symbol_table::Kind;

/// Whether a member of a ring is 1.
pub(crate) fn is_one<R: StarRing>(ring: &R, x: &R::Elem) -> Option<Kind>
    requires { IsTrue ((R.ring ring.now).member x.now) }
    ensures { result ≡ judged R.held (Some x.now) (Some (R.ring ring.now).one) }
{
    compare(ring, x, &ring.one())
}

/// Whether a member of a ring is its own conjugate.
pub(crate) fn is_real<R: StarRing>(ring: &R, x: &R::Elem) -> Option<Kind>
    requires { IsTrue ((R.ring ring.now).member x.now) }
    ensures { result ≡ judged R.held (conjugate_at (R.ring ring.now) x.now) (Some x.now) }
{
    let Ok(turned) = ring.conj(x) else {
        return Some(Kind::Overflow);
    };
    compare(ring, &turned, x)
}

/// Whether the product of two members of a ring is 1.
pub(crate) fn are_inverse<R: StarRing>(ring: &R, x: &R::Elem, y: &R::Elem) -> Option<Kind>
    requires left { IsTrue ((R.ring ring.now).member x.now) }
    requires right { IsTrue ((R.ring ring.now).member y.now) }
    ensures { result ≡ judged R.held (product_at (R.ring ring.now) x.now y.now) (Some (R.ring ring.now).one) }
{
    let Ok(product) = ring.mul(x, y) else {
        return Some(Kind::Overflow);
    };
    is_one(ring, &product)
}

/// A member of a ring times its conjugate times a weight, from the left.
fn norm<R: StarRing>(ring: &R, x: &R::Elem, weight: &R::Elem) -> Result<R::Elem, Overflow>
    requires value { IsTrue ((R.ring ring.now).member x.now) }
    requires weight { IsTrue ((R.ring ring.now).member weight.now) }
    ensures value { Gives result (norm_at (R.ring ring.now) x.now weight.now) }
    ensures member { IfOk result (λ z. IsTrue ((R.ring ring.now).member z)) }
{
    let turned = ring.conj(x)?;
    product3(ring, x, &turned, weight)
}

/// Whether a member of a ring times its conjugate takes one weight to another.
pub(crate) fn takes_weight<R: StarRing>(
    ring: &R,
    x: &R::Elem,
    from: &R::Elem,
    to: &R::Elem,
) -> Option<Kind>
    requires value { IsTrue ((R.ring ring.now).member x.now) }
    requires from { IsTrue ((R.ring ring.now).member from.now) }
    requires to { IsTrue ((R.ring ring.now).member to.now) }
    ensures { result ≡ judged R.held (norm_at (R.ring ring.now) x.now from.now) (Some to.now) }
{
    let Ok(taken) = norm(ring, x, from) else {
        return Some(Kind::Overflow);
    };
    compare(ring, &taken, to)
}

/// Whether a member of a ring is the entry of an identity matrix: 1 where row and column are the same, else 0.
pub(crate) fn is_identity<R: StarRing>(ring: &R, x: &R::Elem, row: u8, column: u8) -> Option<Kind>
    requires { IsTrue ((R.ring ring.now).member x.now) }
    ensures { result ≡ judged R.held (Some x.now)
        (Some (if row == column then (R.ring ring.now).one else (R.ring ring.now).zero)) }
{
    if row == column {
        is_one(ring, x)
    } else {
        compare(ring, x, &ring.zero())
    }
}
