//! The laws of sums in any ring, for the proofs of the crates above.

ghost use Rattle.ring_laws.specs.Laws.{SumsExchange, FactorsDistribute, OrderIsFree};

use crate::StarRing;

/// Sums in any ring, over labels and over lists of items of any type A.
///
/// Two sums over labels exchange, and factors distribute. A list has the same sum in every order, and in two
/// pieces the sum of the sums of both.
pub fn sums<R: StarRing, A>(_ring: &R)
    ensures exchange { SumsExchange (R.ring _ring.now) }
    ensures distribution { FactorsDistribute (R.ring _ring.now) }
    ensures order { OrderIsFree A (R.ring _ring.now) }
{}
