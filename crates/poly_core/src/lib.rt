//! Cyclotomic polynomials, and the powers of a root of unity in the basis that they give.
//!
//! Glossary:
//! - *accepted root*: an order N from 1 to `ROOT_LIMIT` with phi(N) at most `DEGREE_LIMIT` (`specs/Rho.antt`).
//! - *cyclotomic polynomial*: the exact quotient of x^N - 1 by the product of those of the divisors of N
//!   below N (`specs/Cyclotomic.antt`; Washington, Introduction to Cyclotomic Fields, chapter 2).
//! - *rho*: the coefficients of the powers of z, a root of unity of order N (`specs/Rho.antt`).
//! - *sequence*, *combination*: coefficients by their place, and sums of multiples (`specs/Combination.antt`).
//! - *image*: what putting a power of z for z makes of a sequence (`specs/Image.antt`).
#![tactic(auto)]

ghost use Rattle.std.specs.Prelude.{◌≡◌, ◌≤◌, ◌↔◌, IsTrue, IsOk, IfOk, length};
ghost use Rattle.poly_core.specs.Cyclotomic.{IsCyclotomic};
ghost use Rattle.poly_core.specs.Rho.{is_accepted, polynomial};
ghost use Rattle.poly_core.specs.Table.{whole_row};
ghost use Rattle.poly_core.specs.declared.limits.TheConstants.{DEGREE_LIMIT};

pub mod laws;
mod limits;
mod power;
mod table;

use arrayvec::ArrayVec;
pub use limits::{COEFFICIENT_LIMIT, DEGREE_LIMIT, ROOT_LIMIT};
pub use power::{PowerTable, powers};

/// The coefficients of a polynomial of a degree of at most [`DEGREE_LIMIT`], low one first.
pub type Poly = ArrayVec<i64, COEFFICIENT_LIMIT>;

/// The order of a root of unity isn't accepted: it is 0 or above [`ROOT_LIMIT`], or phi of it is above [`DEGREE_LIMIT`].
#[derive(Clone, Copy, Debug, PartialEq, Eq)]
pub struct RootRefused;

/// The cyclotomic polynomial of n, low coefficient first: phi(n) + 1 coefficients, the last of which is 1.
///
/// Refused exactly where n is 0 or above [`ROOT_LIMIT`], or phi(n) is above [`DEGREE_LIMIT`]. Takes no memory.
#[tactic(auto, using(crate::proofs::RhoLemmas::accepted_is))]
pub fn cyclotomic(n: u8) -> Result<Poly, RootRefused>
    ensures accepted { IsOk result ↔ IsTrue (is_accepted n) }
    ensures quotient { IfOk result (λ poly. IsCyclotomic n poly.items) }
    ensures value { IfOk result (λ poly. poly.items ≡ polynomial n) }
{
    match table::low_coefficients(n) {
        Some(low) => Ok(with_top(low)),
        None => Err(RootRefused),
    }
}

/// The polynomial with the top coefficient 1 over the given ones.
fn with_top(low: &[i8]) -> Poly
    requires { length low.now ≤ DEGREE_LIMIT }
    ensures { result.items ≡ whole_row low.now }
{
    let mut poly = ArrayVec::new();
    for coefficient in low {
        poly.push(i64::from(*coefficient));
    }
    poly.push(1);
    poly
}

#[cfg(test)]
mod tests;
