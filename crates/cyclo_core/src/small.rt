//! Products of numbers with small numerators, in 64 bits.
ghost use Rattle.std.specs.Prelude.{◌≡◌, ◌≢◌, ℕ, pos, ◌+◌, ◌*◌, ◌-◌, ◌%◌, ◌^◌, ◌<◌, ◌≤◌, ◌+ℤ◌, ◌*ℤ◌, unsigned_abs, IfSome, IsTrue};
ghost use Rattle.poly_core.specs.Combination.{Sequence};
ghost use Rattle.poly_core.specs.Rho.{degree, order, rho};
ghost use Rattle.poly_core.specs.Table.{at};
ghost use Rattle.cyclo_core.specs.Convolution.{row_sum, weighed, column, AreUpTo};
ghost use Rattle.cyclo_core.specs.Ratio.{product_at, product_size};
ghost use Rattle.cyclo_core.specs.Sums.{int_sum};

use crate::sums::{order_of, places};
use poly_core::PowerTable;

/// The greatest magnitude of a small numerator, 2^24.
const SMALL: i128 = 16777216;

/// The greatest magnitude that leaves room for a sum, 2^126.
const ROOM: i128 = 1 << 126;

/// A numerator, where its magnitude is at most 2^24.
fn narrow(x: &i128) -> Option<i32>
    ensures value { IfSome result (λ v. v ≡ x.now) }
    ensures small { IfSome result (λ v. unsigned_abs v ≤ 2 ^ 24) }
{
    let x = *x;
    if x > SMALL || x < -SMALL {
        return None;
    }
    Some(x as i32)
}

/// The numerators below `end`, where each magnitude is at most 2^24, and zeros from there on.
fn narrowed(x: &[i128; 16], end: usize) -> Option<[i32; 16]>
    requires { end ≤ 16 }
    ensures value { IfSome result (λ v. (k : ℕ) → k < end → at v k ≡ at x.now k) }
    ensures rest { IfSome result (λ v. (k : ℕ) → end ≤ k → at v k ≡ pos 0) }
    ensures small { IfSome result (λ v. AreUpTo (2 ^ 24) v) }
{
    let mut out = [0i32; 16];
    for k in 0..end {
        out[k] = narrow(&x[k])?;
    }
    Some(out)
}

/// The product of two small numbers.
fn times(x: &i32, y: &i32) -> i64
    requires x { unsigned_abs x.now ≤ 2 ^ 24 }
    requires y { unsigned_abs y.now ≤ 2 ^ 24 }
    ensures value { result ≡ x.now *ℤ y.now }
    ensures size { unsigned_abs result ≤ 2 ^ 48 }
{
    let (x, y) = (*x, *y);
    x as i64 * y as i64
}

/// A number times 1, 0 or -1.
fn scaled(c: &i64, by: &i8) -> i64
    requires c { unsigned_abs c.now ≤ 2 ^ 56 }
    requires by { unsigned_abs by.now ≤ 1 }
    ensures value { result ≡ c.now *ℤ by.now }
    ensures size { unsigned_abs result ≤ 2 ^ 56 }
{
    let (c, by) = (*c, *by);
    c * by as i64
}

/// The sum of two numbers of at most 62 bits.
fn plus(x: &i64, y: &i64) -> i64
    requires x { unsigned_abs x.now ≤ 2 ^ 62 - 1 }
    requires y { unsigned_abs y.now ≤ 2 ^ 62 - 1 }
    ensures value { result ≡ x.now +ℤ y.now }
    ensures size { unsigned_abs result ≤ unsigned_abs x.now + unsigned_abs y.now }
{
    *x + *y
}

/// The product of x and y, on top of what stands at one place.
fn add_at(c: &mut [i64; 32], k: usize, x: &i32, y: &i32)
    requires place { k < 32 }
    requires x { unsigned_abs x.now ≤ 2 ^ 24 }
    requires y { unsigned_abs y.now ≤ 2 ^ 24 }
    requires room { unsigned_abs (at c.old k) ≤ 2 ^ 60 }
    ensures value { (r : Sequence) → weighed c.new r ≡ weighed c.old r +ℤ (x.now *ℤ y.now) *ℤ r k }
    ensures here { unsigned_abs (at c.new k) ≤ unsigned_abs (at c.old k) + 2 ^ 48 }
    ensures other { (i : ℕ) → i ≢ k → at c.new i ≡ at c.old i }
{
    c[k] = plus(&c[k], &times(x, y));
}

/// The products of the coefficient at a with those of y, which are zero from `end` on.
fn add_row(c: &mut [i64; 32], x: &[i32; 16], y: &[i32; 16], a: usize, end: usize)
    requires row { a < 16 }
    requires few { end ≤ 16 }
    requires x { AreUpTo (2 ^ 24) x.now }
    requires y { AreUpTo (2 ^ 24) y.now }
    requires ends { (k : ℕ) → end ≤ k → at y.now k ≡ pos 0 }
    requires room { AreUpTo (a * 2 ^ 52) c.old }
    ensures value { (r : Sequence) → weighed c.new r ≡ weighed c.old r +ℤ row_sum (at x.now) (at y.now) r a }
    ensures small { AreUpTo ((a + 1) * 2 ^ 52) c.new }
    ensures past { (k : ℕ) → a + end ≤ k → at c.new k ≡ at c.old k }
{
    if x[a] == 0 {
        return;
    }
    for b in 0..end {
        add_at(c, a + b, &x[a], &y[b]);
    }
}

/// The coefficients of the product of the first `end` of x with those of y, which are zero from `end` on.
fn convolved(x: &[i32; 16], y: &[i32; 16], end: usize) -> [i64; 32]
    requires few { end ≤ 16 }
    requires x { AreUpTo (2 ^ 24) x.now }
    requires y { AreUpTo (2 ^ 24) y.now }
    requires ends { (k : ℕ) → end ≤ k → at y.now k ≡ pos 0 }
    ensures value { (r : Sequence) → weighed result r ≡ int_sum end (row_sum (at x.now) (at y.now) r) }
    ensures small { AreUpTo (2 ^ 56) result }
    ensures past { (k : ℕ) → 2 * end ≤ k → at result k ≡ pos 0 }
{
    let mut c = [0i64; 32];
    for a in 0..end {
        add_row(&mut c, x, y, a, end);
    }
    c
}

/// The coefficients below `end`, and zeros from there on.
fn head(c: &[i64; 32], end: usize) -> [i64; 16]
    requires { end ≤ 16 }
    ensures value { (j : ℕ) → j < end → at result j ≡ at c.now j }
    ensures rest { (j : ℕ) → end ≤ j → at result j ≡ pos 0 }
    ensures small { (bound : ℕ) → AreUpTo bound c.now → AreUpTo bound result }
{
    let mut out = [0i64; 16];
    for j in 0..end {
        out[j] = c[j];
    }
    out
}

/// c times each coefficient of a power, on top of what stands there.
fn add_multiple(out: &mut [i64; 16], c: &i64, row: &[i8; 16])
    requires c { unsigned_abs c.now ≤ 2 ^ 56 }
    requires row { AreUpTo 1 row.now }
    requires room { AreUpTo (2 ^ 62 - 1) out.old }
    ensures value { (j : ℕ) → j < 16 → at out.new j ≡ at out.old j +ℤ (c.now *ℤ at row.now j) }
    ensures size { (j : ℕ) → unsigned_abs (at out.new j) ≤ unsigned_abs (at out.old j) + 2 ^ 56 }
{
    for j in 0..16 {
        out[j] = plus(&out[j], &scaled(c, &row[j]));
    }
}

/// The rest of k by the order of z, mostly k itself.
fn wrapped(k: usize, order: usize) -> usize
    requires { 0 < order }
    ensures { result ≡ k % order }
{
    if k < order { k } else { k % order }
}

/// The coefficients of z^k, for any k.
fn power_row(powers: &PowerTable, k: usize) -> &[i8; 16]
    ensures value { at result.now ≡ rho powers.now k }
    ensures tiny { AreUpTo 1 result.now }
{
    let order = order_of(powers);
    powers.row(wrapped(k, order) as u8)
}

/// The coefficient of z^k in c, times z^k, on top of what stands at each place.
fn add_power(out: &mut [i64; 16], c: &[i64; 32], powers: &PowerTable, k: usize)
    requires place { k < 32 }
    requires c { AreUpTo (2 ^ 56) c.now }
    requires room { AreUpTo (2 ^ 62 - 1) out.old }
    ensures value { (j : ℕ) → j < 16 → at out.new j ≡ at out.old j +ℤ (at c.now k *ℤ rho powers.now k j) }
    ensures size { (j : ℕ) → unsigned_abs (at out.new j) ≤ unsigned_abs (at out.old j) + 2 ^ 56 }
{
    if c[k] == 0 {
        return;
    }
    add_multiple(out, &c[k], power_row(powers, k));
}

/// The sixteen coefficients of the sum of c_k times z^k, where the c_k are zero from 2 phi(N) on.
fn folded(c: &[i64; 32], powers: &PowerTable) -> [i64; 16]
    requires small { AreUpTo (2 ^ 56) c.now }
    requires ends { (k : ℕ) → 2 * degree powers.now ≤ k → at c.now k ≡ pos 0 }
    ensures value { (j : ℕ) → j < 16 → at result j ≡ weighed c.now (column powers.now j) }
    ensures rest { (j : ℕ) → 16 ≤ j → at result j ≡ pos 0 }
    ensures size { AreUpTo (2 ^ 62 - 1) result }
{
    let phi = places(powers);
    let mut out = head(c, phi);
    for k in phi..2 * phi {
        add_power(&mut out, c, powers, k);
    }
    out
}

/// The numerators of a product before cancelling, in 64 bits, where all magnitudes are at most 2^24.
pub fn whole_product(powers: &PowerTable, x: &[i128; 16], y: &[i128; 16]) -> Option<[i64; 16]>
    ensures fits { IfSome result (λ _. (j : ℕ) → j < degree powers.now → product_size powers.now (at x.now) (at y.now) j ≤ 2 ^ 127 - 1) }
    ensures value { IfSome result (λ z. (j : ℕ) → j < degree powers.now → at z j ≡ product_at powers.now (at x.now) (at y.now) j) }
    ensures rest { IfSome result (λ z. (j : ℕ) → degree powers.now ≤ j → at z j ≡ pos 0) }
    ensures small { IfSome result (λ z. AreUpTo (2 ^ 62 - 1) z) }
{
    let phi = places(powers);
    let xs = narrowed(x, phi)?;
    let ys = narrowed(y, phi)?;
    Some(folded(&convolved(&xs, &ys, phi), powers))
}

/// Sixteen numbers in 128 bits.
pub fn wide(x: &[i64; 16]) -> [i128; 16]
    ensures value { (j : ℕ) → at result j ≡ at x.now j }
    ensures small { (j : ℕ) → unsigned_abs (at result j) ≤ 2 ^ 127 - 1 }
{
    let mut out = [0i128; 16];
    for j in 0..16 {
        out[j] = i128::from(x[j]);
    }
    out
}

/// Whether all magnitudes are at most 2^126, so that a number of 64 bits can be added to each.
pub fn have_room(x: &[i128; 16]) -> bool
    ensures { IsTrue result → (j : ℕ) → unsigned_abs (at x.now j) ≤ 2 ^ 126 }
{
    for j in 0..16 {
        if x[j] > ROOM || x[j] < -ROOM {
            return false;
        }
    }
    true
}

/// The sum of a number with one of 64 bits.
fn raised(x: &i128, by: &i64) -> i128
    requires room { unsigned_abs x.now ≤ 2 ^ 126 }
    ensures value { result ≡ x.now +ℤ by.now }
    ensures small { unsigned_abs result ≤ 2 ^ 127 - 1 }
{
    let by = *by;
    *x + i128::from(by)
}

/// Adds sixteen numbers of 64 bits to as many, which have room for them.
pub fn add_all(x: &mut [i128; 16], by: &[i64; 16])
    requires room { (j : ℕ) → unsigned_abs (at x.old j) ≤ 2 ^ 126 }
    ensures value { (j : ℕ) → at x.new j ≡ at x.old j +ℤ at by.now j }
    ensures small { (j : ℕ) → unsigned_abs (at x.new j) ≤ 2 ^ 127 - 1 }
{
    for j in 0..16 {
        x[j] = raised(&x[j], &by[j]);
    }
}
