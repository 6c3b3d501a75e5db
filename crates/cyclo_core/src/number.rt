//! Numbers of one root, and their ring.
ghost use Rattle.std.specs.Prelude.{◌≡◌, ◌↔◌, ℕ, ℤ, pos, ◌≤◌, ◌<◌, ◌^◌, ◌-◌, ◌*◌, ◌/◌, unsigned_abs, length, false, Some, IsTrue, IsOk, IfOk};
ghost use Rattle.ring_laws.specs.Stated.{add_product_at};
ghost use Rattle.poly_core.specs.Gcd.{totient};
ghost use Rattle.poly_core.specs.Rho.{is_accepted, degree, order};
ghost use Rattle.poly_core.specs.Table.{at};
ghost use Rattle.cyclo_core.specs.Content.{content};
ghost use Rattle.cyclo_core.specs.Given.{are_small, number_of};
ghost use Rattle.cyclo_core.specs.Image.{is_exponent, image_of, image_fits};
ghost use Rattle.cyclo_core.specs.Ratio.{reduced, is_held, ring_at};

use crate::cancel::{content, divided, gcd, quotients};
use crate::fault::NumberFault;
use crate::image::image_numerators;
use crate::small::{add_all, have_room, whole_product};
use crate::sums::{conjugate, negated, product, sum};
use poly_core::{PowerTable, RootRefused, powers};
use ring_laws::{Overflow, StarRing};
use std::marker::Model;

/// A cyclotomic number: the sum over j below 16 of numerator j times z^j, over a denominator, where z is a root
/// of unity of some order.
///
/// Magnitudes are at most 2^127 - 1, the denominator is at least 1, and it has no divisor in common with all
/// numerators; so zero is 0 over 1, and each number has one form.
#[derive(Debug, Drop)]
pub struct Number {
    numerators: [i128; 16],
    denominator: u128,
}

impl Model for Number {
    ghost use Rattle.cyclo_core.specs.Ratio.{Ratio, IsNumber};

    ghost Value = { Ratio };

    ghost view = { λ a. record { numerators = a.numerators; denominator = a.denominator } };

    ghost invariant = { λ a. IsNumber a.numerators a.denominator };
}

impl Number {
    /// The numerator of z^j, for j below 16. Its magnitude is at most 2^127 - 1.
    pub fn numerator(&self, j: u8) -> i128
        requires { j < 16 }
        ensures value { result ≡ at self.now.numerators j }
        ensures small { unsigned_abs result ≤ 2 ^ 127 - 1 }
    {
        self.numerators[usize::from(j)]
    }

    /// The denominator, from 1 to 2^127 - 1. It has no divisor above 1 in common with all numerators.
    pub fn denominator(&self) -> i128
        ensures value { result ≡ pos self.now.denominator }
        ensures positive { 0 < self.now.denominator }
        ensures bounded { self.now.denominator ≤ 2 ^ 127 - 1 }
        ensures lowest { content self.now.denominator 16 (at self.now.numerators) ≡ 1 }
        ensures full { length self.now.numerators ≡ 16 }
        ensures held { IsTrue (is_held self.now) }
    {
        self.denominator as i128
    }
}

/// Sixteen numerators over a denominator, without what they have in common.
fn cancelled(numerators: &[i128; 16], denominator: u128) -> Number
    requires small { (j : ℕ) → unsigned_abs (at numerators.now j) ≤ 2 ^ 127 - 1 }
    requires positive { 0 < denominator }
    requires bounded { denominator ≤ 2 ^ 127 - 1 }
    ensures value { result ≡ reduced (at numerators.now) denominator }
    ensures holds { IsTrue (is_held result) }
{
    if denominator == 1 {
        return Number {
            numerators: *numerators,
            denominator,
        };
    }
    let divisor = content(denominator, numerators);
    Number {
        numerators: quotients(numerators, divisor),
        denominator: denominator / divisor,
    }
}

/// The product of two denominators.
fn denominators(d: u128, e: u128) -> Result<u128, Overflow>
    ensures fits { (d * e ≤ 2 ^ 127 - 1) ↔ IsOk result }
    ensures value { IfOk result (λ m. m ≡ d * e) }
{
    match d.checked_mul(e) {
        Some(m) if m <= i128::MAX as u128 => Ok(m),
        _ => Err(Overflow),
    }
}

/// Adds the product of two numbers to a third in place, where all three are over 1 and 64 bits are enough for the
/// product. Answers whether it did.
fn add_whole_product(powers: &PowerTable, sum: &mut Number, x: &Number, y: &Number) -> bool
    requires { IsTrue ((ring_at powers.now).member sum.old) }
    ensures value { IsTrue result → add_product_at (ring_at powers.now) sum.old x.now y.now ≡ Some sum.new }
    ensures member { IsTrue ((ring_at powers.now).member sum.new) }
    ensures kept { result ≡ false → sum.new ≡ sum.old }
{
    if sum.denominator != 1 || x.denominator != 1 || y.denominator != 1 {
        return false;
    }
    if !have_room(&sum.numerators) {
        return false;
    }
    let Some(product) = whole_product(powers, &x.numerators, &y.numerators) else {
        return false;
    };
    add_all(&mut sum.numerators, &product);
    true
}

/// The ring of the cyclotomic numbers of one root.
#[derive(Drop)]
pub struct Cyclo {
    powers: PowerTable,
}

impl Model for Cyclo {
    ghost use Rattle.std.specs.Prelude.{ℕ, IsTrue};
    ghost use Rattle.poly_core.specs.Rho.{is_accepted};

    ghost Value = { ℕ };

    ghost view = { λ a. a.powers };

    ghost invariant = { λ a. IsTrue (is_accepted a.powers) };
}

impl Cyclo {
    /// The ring of the numbers whose root of unity has order n.
    ///
    /// Refused exactly where n is 0 or above 60, or phi(n) is above 16. Takes no memory.
    pub fn new(n: u8) -> Result<Cyclo, RootRefused>
        ensures accepted { IsOk result ↔ IsTrue (is_accepted n) }
        ensures root { IfOk result (λ ring. ring ≡ n) }
    {
        Ok(Cyclo { powers: powers(n)? })
    }

    /// The order N of the root of unity.
    pub fn root(&self) -> u8
        ensures value { result ≡ self.now }
        ensures accepted { IsTrue (is_accepted self.now) }
        ensures order { order self.now ≡ self.now }
    {
        self.powers.root()
    }

    /// phi(N): how many numerators a number of this ring may have.
    pub fn phi(&self) -> u8
        ensures value { result ≡ totient self.now }
        ensures degree { result ≡ degree self.now }
    {
        self.powers.phi()
    }

    /// The number of sixteen numerators over a denominator, of either sign.
    ///
    /// The numerators at phi(N) and above are to be zero. The sign of a negative denominator moves to the
    /// numerators, and what all have in common is cancelled. It is too big exactly where a magnitude is above
    /// 2^127 - 1; the denominator is refused exactly where none is, and it is 0. Takes no memory.
    pub fn reduced(&self, nums: &[i128; 16], den: i128) -> Result<Number, NumberFault>
        requires { (j : ℕ) → totient self.now ≤ j → j < 16 → at nums.now j ≡ pos 0 }
        ensures value { result ≡ number_of nums.now den }
        ensures member { IfOk result (λ z. IsTrue ((ring_at self.now).member z)) }
    {
        if !are_small(nums, &den) {
            return Err(NumberFault::TooBig);
        }
        if den == 0 {
            return Err(NumberFault::ZeroDenominator);
        }
        let _root = self.powers.root();
        if den < 0 {
            Ok(cancelled(&negated(nums), den.unsigned_abs()))
        } else {
            Ok(cancelled(nums, den.unsigned_abs()))
        }
    }

    /// Whether k is from 1 to N and has no divisor above 1 in common with N, so that z^k has the order N too.
    pub fn is_exponent(&self, k: u8) -> bool
        ensures { result ≡ is_exponent self.now k }
    {
        let root = self.powers.root();
        if k == 0 || k > root {
            return false;
        }
        gcd(u128::from(k), u128::from(root)) == 1
    }

    /// The image of a number under the map of rings that sends z to z^k, for an exponent k ([`Cyclo::is_exponent`]).
    ///
    /// Its numerator at j is the sum over a of that of x at a times the coefficient of z^j in z^(a k); it is too
    /// large exactly where the same sum of magnitudes is above 2^127 - 1, for some j below phi(N). The denominator
    /// is that of x, before what all have in common is cancelled. Takes no memory.
    pub fn image(&self, k: u8, x: &Number) -> Result<Number, Overflow>
        requires exponent { IsTrue (is_exponent self.now k) }
        requires member { IsTrue ((ring_at self.now).member x.now) }
        ensures fits { IsTrue (image_fits self.now k x.now) ↔ IsOk result }
        ensures value { IfOk result (λ z. z ≡ image_of self.now k x.now) }
        ensures member { IfOk result (λ z. IsTrue ((ring_at self.now).member z)) }
        ensures holds { IfOk result (λ z. IsTrue (is_held z)) }
        ensures known { IsTrue (is_held x.now) }
    {
        let numerators = image_numerators(&self.powers, k, &x.numerators)?;
        Ok(cancelled(&numerators, x.denominator))
    }
}

fn is_small(x: &i128) -> bool
    ensures { IsTrue result ↔ (unsigned_abs x.now ≤ 2 ^ 127 - 1) }
{
    x.unsigned_abs() <= i128::MAX as u128
}

/// Whether all magnitudes are at most 2^127 - 1.
fn are_small(nums: &[i128; 16], den: &i128) -> bool
    ensures { result ≡ are_small nums.now den.now }
{
    for j in 0..16 {
        if !is_small(&nums[j]) {
            return false;
        }
    }
    is_small(den)
}

impl StarRing for Cyclo {
    ghost use Rattle.cyclo_core.specs.Ratio.{held as ratio_held, ring_at};
    ghost use Rattle.cyclo_core.specs.RingAt.{ring_at_laws};

    type Elem = Number;

    ghost ring = { ring_at };

    ghost held = { ratio_held };

    ghost laws = { ring_at_laws };

    fn zero(&self) -> Number {
        Number {
            numerators: [0; 16],
            denominator: 1,
        }
    }

    fn one(&self) -> Number {
        let mut numerators = [0; 16];
        numerators[0] = 1;
        Number {
            numerators,
            denominator: 1,
        }
    }

    fn add(&self, x: &Number, y: &Number) -> Result<Number, Overflow> {
        let divisor = gcd(x.denominator, y.denominator);
        let left = divided(y.denominator, divisor);
        let right = divided(x.denominator, divisor);
        let numerators = sum(&self.powers, &x.numerators, left, &y.numerators, right)?;
        let denominator = denominators(x.denominator, left)?;
        Ok(cancelled(&numerators, denominator))
    }

    fn mul(&self, x: &Number, y: &Number) -> Result<Number, Overflow> {
        let numerators = product(&self.powers, &x.numerators, &y.numerators)?;
        let denominator = denominators(x.denominator, y.denominator)?;
        Ok(cancelled(&numerators, denominator))
    }

    fn add_product_to(&self, sum: &mut Number, x: &Number, y: &Number) -> Result<(), Overflow> {
        if add_whole_product(&self.powers, sum, x, y) {
            return Ok(());
        }
        let product = self.mul(x, y)?;
        *sum = self.add(sum, &product)?;
        Ok(())
    }

    fn neg(&self, x: &Number) -> Number {
        cancelled(&negated(&x.numerators), x.denominator)
    }

    fn conj(&self, x: &Number) -> Result<Number, Overflow> {
        let numerators = conjugate(&self.powers, &x.numerators)?;
        Ok(cancelled(&numerators, x.denominator))
    }

    fn copy(&self, x: &Number) -> Number {
        Number {
            numerators: x.numerators,
            denominator: x.denominator,
        }
    }

    fn same(&self, x: &Number, y: &Number) -> bool {
        x.numerators == y.numerators && x.denominator == y.denominator
    }
}
