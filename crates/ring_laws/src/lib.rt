//! The numbers that a category is checked over: a commutative ring with an involution, whose calls are
//! exact or say that the answer is too large.
//!
//! Glossary:
//! - *ring value*: a value of a ring without bound (`specs/Ring.antt`).
//! - *member*: a value of one ring; *held*: a value that the element type can hold (`specs/Ring.antt`).
//! - *fit test*: whether the answer of a call on two values is small enough (`specs/Ring.antt`).
//! - *stated evaluation*: products, sums and conjugates in a given order, which stops at the first
//!   that doesn't fit (`specs/Stated.antt`).
//! - *total*: a sum over the labels below a count (`specs/Sums.antt`).
#![tactic(auto)]

ghost use Rattle.std.specs.Prelude.{◌≡◌, ◌↔◌, None, Some, IsTrue, IsOk, IfOk, OnErr, OnOk};
ghost use Rattle.ring_laws.specs.Ring.{Ring, Held, RingLaws};
ghost use Rattle.ring_laws.specs.Stated.{add_product_at};

pub mod laws;
mod stated;
mod whole;

pub use stated::{add_product, add_product3, product3, sum_over_labels};
pub use whole::{Int, Whole};

/// The answer of a ring call is too large for the element type.
#[derive(Clone, Copy, Debug, PartialEq, Eq)]
pub struct Overflow;

/// A commutative ring with an involution, over elements of a bounded type.
///
/// An element is seen as a ring value without bound. Every call answers its meaning in the ring;
/// `add`, `mul` and `conj` answer [`Overflow`] exactly where the ring's fit test of their arguments is
/// false. No call takes memory.
pub trait StarRing: Drop {
    type Elem: Drop;

    ghost ring: { Self → Ring Self.Elem };

    ghost held: { Held Self.Elem };

    /// The zero of the ring.
    fn zero(&self) -> Self::Elem
        ensures value { result ≡ (ring self.now).zero }
        ensures member { IsTrue ((ring self.now).member result) }
        ensures holds { IsTrue (held.can_hold result) };

    /// The one of the ring.
    fn one(&self) -> Self::Elem
        ensures value { result ≡ (ring self.now).one }
        ensures member { IsTrue ((ring self.now).member result) }
        ensures holds { IsTrue (held.can_hold result) };

    /// The sum of two members.
    fn add(&self, x: &Self::Elem, y: &Self::Elem) -> Result<Self::Elem, Overflow>
        requires left { IsTrue ((ring self.now).member x.now) }
        requires right { IsTrue ((ring self.now).member y.now) }
        ensures fits { IsTrue ((ring self.now).sum_fits x.now y.now) ↔ IsOk result }
        ensures value { IfOk result (λ z. z ≡ (ring self.now).sum x.now y.now) }
        ensures member { IfOk result (λ z. IsTrue ((ring self.now).member z)) }
        ensures holds { IfOk result (λ z. IsTrue (held.can_hold z)) }
        ensures left_held { IsTrue (held.can_hold x.now) }
        ensures right_held { IsTrue (held.can_hold y.now) };

    /// The product of two members.
    fn mul(&self, x: &Self::Elem, y: &Self::Elem) -> Result<Self::Elem, Overflow>
        requires left { IsTrue ((ring self.now).member x.now) }
        requires right { IsTrue ((ring self.now).member y.now) }
        ensures fits { IsTrue ((ring self.now).product_fits x.now y.now) ↔ IsOk result }
        ensures value { IfOk result (λ z. z ≡ (ring self.now).product x.now y.now) }
        ensures member { IfOk result (λ z. IsTrue ((ring self.now).member z)) }
        ensures holds { IfOk result (λ z. IsTrue (held.can_hold z)) }
        ensures left_held { IsTrue (held.can_hold x.now) }
        ensures right_held { IsTrue (held.can_hold y.now) };

    /// Adds the product of two members to a third, in its place: first the product, then the sum with it.
    ///
    /// Answers [`Overflow`] exactly where one of the two doesn't fit, and the sum is then what it was.
    fn add_product_to(
        &self,
        sum: &mut Self::Elem,
        x: &Self::Elem,
        y: &Self::Elem,
    ) -> Result<(), Overflow>
        requires sum { IsTrue ((ring self.now).member sum.old) }
        requires left { IsTrue ((ring self.now).member x.now) }
        requires right { IsTrue ((ring self.now).member y.now) }
        ensures ok { OnOk result (add_product_at (ring self.now) sum.old x.now y.now ≡ Some sum.new) }
        ensures err { OnErr result (add_product_at (ring self.now) sum.old x.now y.now ≡ None) }
        ensures kept { OnErr result (sum.new ≡ sum.old) }
        ensures member { IsTrue ((ring self.now).member sum.new) };

    /// The negative of a member.
    fn neg(&self, x: &Self::Elem) -> Self::Elem
        requires member { IsTrue ((ring self.now).member x.now) }
        ensures value { result ≡ (ring self.now).negative x.now }
        ensures member { IsTrue ((ring self.now).member result) }
        ensures holds { IsTrue (held.can_hold result) }
        ensures known { IsTrue (held.can_hold x.now) };

    /// The conjugate of a member.
    fn conj(&self, x: &Self::Elem) -> Result<Self::Elem, Overflow>
        requires member { IsTrue ((ring self.now).member x.now) }
        ensures fits { IsTrue ((ring self.now).conjugate_fits x.now) ↔ IsOk result }
        ensures value { IfOk result (λ z. z ≡ (ring self.now).conjugate x.now) }
        ensures member { IfOk result (λ z. IsTrue ((ring self.now).member z)) }
        ensures holds { IfOk result (λ z. IsTrue (held.can_hold z)) }
        ensures known { IsTrue (held.can_hold x.now) };

    /// The same value again.
    fn copy(&self, x: &Self::Elem) -> Self::Elem
        requires member { IsTrue ((ring self.now).member x.now) }
        ensures value { result ≡ x.now }
        ensures holds { IsTrue (held.can_hold result) };

    /// Whether two members are equal.
    fn same(&self, x: &Self::Elem, y: &Self::Elem) -> bool
        requires left { IsTrue ((ring self.now).member x.now) }
        requires right { IsTrue ((ring self.now).member y.now) }
        ensures value { IsTrue result ↔ (x.now ≡ y.now) }
        ensures left_held { IsTrue (held.can_hold x.now) }
        ensures right_held { IsTrue (held.can_hold y.now) };

    ghost laws: { (r : Self) → RingLaws (ring r) held };
}

/// Whether a member is zero.
pub fn is_zero<R: StarRing>(ring: &R, x: &R::Elem) -> bool
    requires { IsTrue ((R.ring ring.now).member x.now) }
    ensures value { result ≡ R.held.is_zero x.now }
    ensures held { IsTrue (R.held.can_hold x.now) }
{
    ring.same(x, &ring.zero())
}

#[cfg(test)]
mod tests;
