//! The numerators of products, sums, negatives and conjugates: each exact, or too large.
ghost use Rattle.std.specs.Prelude.{◌≡◌, ℕ, ◌+◌, ◌*◌, ◌-◌, ◌^◌, ◌<◌, ◌≤◌, ◌%◌, ◌↔◌, ◌+ℤ◌, ◌*ℤ◌, pos, neg_ℤ, unsigned_abs, IsOk, IfOk, length};
ghost use Rattle.poly_core.specs.Rho.{degree, order, rho};
ghost use Rattle.poly_core.specs.Table.{at};
ghost use Rattle.cyclo_core.specs.Ratio.{product_term, product_at, product_size_term, product_size, conjugate_term, conjugate_over, conjugate_size_term, conjugate_size};
ghost use Rattle.cyclo_core.specs.Sums.{int_sum, nat_sum};

use crate::small::{whole_product, wide};
use crate::tally::{Tally, add_product, add_term};
use poly_core::PowerTable;
use ring_laws::Overflow;

/// phi(N): how many numerators count.
pub fn places(powers: &PowerTable) -> usize
    ensures value { result ≡ degree powers.now }
    ensures few { result ≤ 16 }
    ensures within { result ≤ order powers.now }
{
    let phi = powers.phi();
    usize::from(phi)
}

/// The order N of z.
pub fn order_of(powers: &PowerTable) -> usize
    ensures value { result ≡ order powers.now }
    ensures root { result ≡ powers.now }
    ensures positive { 0 < result }
    ensures small { result ≤ 60 }
{
    let root = powers.root();
    usize::from(root)
}

/// The coefficient of z^j in z^k, for any k.
pub fn power_at(powers: &PowerTable, k: usize, j: usize) -> i128
    requires { j < degree powers.now }
    ensures { result ≡ rho powers.now (k % order powers.now) j }
{
    let phi = powers.phi();
    let order = order_of(powers);
    let rest = k % order;
    i128::from(powers.rho(rest as u8, j as u8))
}

/// The terms of one numerator of x, on top of a tally.
#[tactic(auto, using(crate::proofs::SumLemmas::sums))]
fn add_row(
    tally: Tally,
    powers: &PowerTable,
    x: &[i128; 16],
    y: &[i128; 16],
    a: usize,
    j: usize,
) -> Result<Tally, Overflow>
    requires row { a < degree powers.now }
    requires place { j < degree powers.now }
    ensures fits { (tally.size + nat_sum (degree powers.now) (product_size_term powers.now (at x.now) (at y.now) j a) ≤ 2 ^ 127 - 1) ↔ IsOk result }
    ensures value { IfOk result (λ t. t.value ≡ tally.value +ℤ int_sum (degree powers.now) (product_term powers.now (at x.now) (at y.now) j a)) }
    ensures size { IfOk result (λ t. t.size ≡ tally.size + nat_sum (degree powers.now) (product_size_term powers.now (at x.now) (at y.now) j a)) }
{
    let end = places(powers);
    if x[a] == 0 {
        return Ok(tally);
    }
    let mut tally = tally;
    for b in 0..end {
        tally = add_term(tally, &x[a], &y[b], &power_at(powers, a + b, j))?;
    }
    Ok(tally)
}

/// The numerator at j of a product.
#[tactic(auto, using(crate::proofs::SumLemmas::sums))]
fn product_numerator(
    powers: &PowerTable,
    x: &[i128; 16],
    y: &[i128; 16],
    j: usize,
) -> Result<i128, Overflow>
    requires { j < degree powers.now }
    ensures fits { (product_size powers.now (at x.now) (at y.now) j ≤ 2 ^ 127 - 1) ↔ IsOk result }
    ensures value { IfOk result (λ z. z ≡ product_at powers.now (at x.now) (at y.now) j) }
    ensures small { IfOk result (λ z. unsigned_abs z ≤ 2 ^ 127 - 1) }
{
    let mut tally = Tally::new();
    let end = places(powers);
    for a in 0..end {
        tally = add_row(tally, powers, x, y, a, j)?;
    }
    Ok(tally.total())
}

/// The numerators of a product before cancelling, by the double sum in 128 bits.
fn plain_product(
    powers: &PowerTable,
    x: &[i128; 16],
    y: &[i128; 16],
) -> Result<[i128; 16], Overflow>
    ensures fits { ((j : ℕ) → j < degree powers.now → product_size powers.now (at x.now) (at y.now) j ≤ 2 ^ 127 - 1) ↔ IsOk result }
    ensures value { IfOk result (λ z. (j : ℕ) → j < degree powers.now → at z j ≡ product_at powers.now (at x.now) (at y.now) j) }
    ensures rest { IfOk result (λ z. (j : ℕ) → degree powers.now ≤ j → at z j ≡ pos 0) }
    ensures small { IfOk result (λ z. (j : ℕ) → unsigned_abs (at z j) ≤ 2 ^ 127 - 1) }
{
    let mut out = [0i128; 16];
    let end = places(powers);
    for j in 0..end {
        out[j] = product_numerator(powers, x, y, j)?;
    }
    Ok(out)
}

/// The numerators of a product, before cancelling.
pub fn product(powers: &PowerTable, x: &[i128; 16], y: &[i128; 16]) -> Result<[i128; 16], Overflow>
    ensures fits { ((j : ℕ) → j < degree powers.now → product_size powers.now (at x.now) (at y.now) j ≤ 2 ^ 127 - 1) ↔ IsOk result }
    ensures value { IfOk result (λ z. (j : ℕ) → j < degree powers.now → at z j ≡ product_at powers.now (at x.now) (at y.now) j) }
    ensures rest { IfOk result (λ z. (j : ℕ) → degree powers.now ≤ j → at z j ≡ pos 0) }
    ensures small { IfOk result (λ z. (j : ℕ) → unsigned_abs (at z j) ≤ 2 ^ 127 - 1) }
{
    match whole_product(powers, x, y) {
        Some(numerators) => Ok(wide(&numerators)),
        None => plain_product(powers, x, y),
    }
}

/// The numerator at j of a conjugate.
#[tactic(auto, using(crate::proofs::SumLemmas::sums))]
fn conjugate_numerator(powers: &PowerTable, x: &[i128; 16], j: usize) -> Result<i128, Overflow>
    requires { j < degree powers.now }
    ensures fits { (conjugate_size powers.now (at x.now) j ≤ 2 ^ 127 - 1) ↔ IsOk result }
    ensures value { IfOk result (λ z. z ≡ conjugate_over powers.now (at x.now) j) }
    ensures small { IfOk result (λ z. unsigned_abs z ≤ 2 ^ 127 - 1) }
{
    let mut tally = Tally::new();
    let end = places(powers);
    let order = order_of(powers);
    for a in 0..end {
        tally = add_product(tally, &x[a], &power_at(powers, order - a, j))?;
    }
    Ok(tally.total())
}

/// The numerators of a conjugate, before cancelling.
pub fn conjugate(powers: &PowerTable, x: &[i128; 16]) -> Result<[i128; 16], Overflow>
    ensures fits { ((j : ℕ) → j < degree powers.now → conjugate_size powers.now (at x.now) j ≤ 2 ^ 127 - 1) ↔ IsOk result }
    ensures value { IfOk result (λ z. (j : ℕ) → j < degree powers.now → at z j ≡ conjugate_over powers.now (at x.now) j) }
    ensures rest { IfOk result (λ z. (j : ℕ) → degree powers.now ≤ j → at z j ≡ pos 0) }
    ensures small { IfOk result (λ z. (j : ℕ) → unsigned_abs (at z j) ≤ 2 ^ 127 - 1) }
{
    let mut out = [0i128; 16];
    let end = places(powers);
    for j in 0..end {
        out[j] = conjugate_numerator(powers, x, j)?;
    }
    Ok(out)
}

/// A denominator as a factor.
fn factor(d: u128) -> i128
    requires { d ≤ 2 ^ 127 - 1 }
    ensures { result ≡ pos d }
{
    d as i128
}

/// x times `left` and y times `right`.
fn weighted(x: &i128, left: u128, y: &i128, right: u128) -> Result<i128, Overflow>
    requires left { left ≤ 2 ^ 127 - 1 }
    requires right { right ≤ 2 ^ 127 - 1 }
    ensures fits { (unsigned_abs x.now * left + unsigned_abs y.now * right ≤ 2 ^ 127 - 1) ↔ IsOk result }
    ensures value { IfOk result (λ z. z ≡ x.now *ℤ pos left +ℤ (y.now *ℤ pos right)) }
    ensures small { IfOk result (λ z. unsigned_abs z ≤ 2 ^ 127 - 1) }
{
    let first = add_product(Tally::new(), x, &factor(left))?;
    let both = add_product(first, y, &factor(right))?;
    Ok(both.total())
}

/// The numerators of a sum, where x is to be multiplied by `left` and y by `right`, before cancelling.
pub fn sum(
    powers: &PowerTable,
    x: &[i128; 16],
    left: u128,
    y: &[i128; 16],
    right: u128,
) -> Result<[i128; 16], Overflow>
    requires left { left ≤ 2 ^ 127 - 1 }
    requires right { right ≤ 2 ^ 127 - 1 }
    ensures fits { ((j : ℕ) → j < degree powers.now → unsigned_abs (at x.now j) * left + unsigned_abs (at y.now j) * right ≤ 2 ^ 127 - 1) ↔ IsOk result }
    ensures value { IfOk result (λ z. (j : ℕ) → j < degree powers.now → at z j ≡ at x.now j *ℤ pos left +ℤ (at y.now j *ℤ pos right)) }
    ensures rest { IfOk result (λ z. (j : ℕ) → degree powers.now ≤ j → at z j ≡ pos 0) }
    ensures full { IfOk result (λ z. length z ≡ 16) }
    ensures small { IfOk result (λ z. (j : ℕ) → unsigned_abs (at z j) ≤ 2 ^ 127 - 1) }
{
    let mut out = [0i128; 16];
    let end = places(powers);
    for j in 0..end {
        out[j] = weighted(&x[j], left, &y[j], right)?;
    }
    Ok(out)
}

fn negative(x: &i128) -> i128
    requires { unsigned_abs x.now ≤ 2 ^ 127 - 1 }
    ensures value { result ≡ neg_ℤ x.now }
    ensures small { unsigned_abs result ≤ 2 ^ 127 - 1 }
{
    -*x
}

/// The negatives of sixteen numbers.
pub fn negated(x: &[i128; 16]) -> [i128; 16]
    requires { (j : ℕ) → unsigned_abs (at x.now j) ≤ 2 ^ 127 - 1 }
    ensures value { (j : ℕ) → at result j ≡ neg_ℤ (at x.now j) }
    ensures small { (j : ℕ) → unsigned_abs (at result j) ≤ 2 ^ 127 - 1 }
{
    let mut out = [0i128; 16];
    for j in 0..16 {
        out[j] = negative(&x[j]);
    }
    out
}
