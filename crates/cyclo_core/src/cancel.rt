//! Cancelling: the greatest common divisor, and division by it.
ghost use Rattle.std.specs.Prelude.{◌≡◌, ℕ, ◌≤◌, ◌<◌, ◌^◌, ◌-◌, ◌/◌, unsigned_abs, length};
ghost use Rattle.poly_core.specs.Gcd.{gcd};
ghost use Rattle.poly_core.specs.Table.{at};
ghost use Rattle.cyclo_core.specs.Content.{content, quotient};

/// The greatest common divisor, by Euclid's steps.
#[tactic(auto, using(crate::proofs::CancelLemmas::gcd_steps))]
pub fn gcd(a: u128, b: u128) -> u128
    ensures { result ≡ gcd a b }
{
    if b == 1 {
        return 1;
    }
    let mut a = a;
    let mut b = b;
    while b != 0 {
        let rest = a % b;
        a = b;
        b = rest;
    }
    a
}

/// The quotient by a divisor that is mostly 1.
pub fn divided(number: u128, divisor: u128) -> u128
    requires { 0 < divisor }
    ensures { result ≡ number / divisor }
{
    if divisor == 1 {
        number
    } else {
        number / divisor
    }
}

/// The greatest common divisor of `first` and the magnitudes of sixteen numbers.
#[tactic(auto, using(crate::proofs::CancelLemmas::gcd_steps))]
pub fn content(first: u128, numbers: &[i128; 16]) -> u128
    ensures { result ≡ content first 16 (at numbers.now) }
{
    let mut divisor = first;
    for j in 0..16 {
        divisor = gcd(divisor, numbers[j].unsigned_abs());
    }
    divisor
}

/// The quotient of a number and one that divides it.
fn quotient(x: &i128, divisor: u128) -> i128
    requires positive { 0 < divisor }
    requires small { unsigned_abs x.now ≤ 2 ^ 127 - 1 }
    ensures value { result ≡ quotient divisor x.now }
    ensures small { unsigned_abs result ≤ 2 ^ 127 - 1 }
{
    let size = (x.unsigned_abs() / divisor) as i128;
    if *x < 0 { -size } else { size }
}

/// The quotients of sixteen numbers and one that divides them.
pub fn quotients(numbers: &[i128; 16], divisor: u128) -> [i128; 16]
    requires positive { 0 < divisor }
    requires small { (j : ℕ) → unsigned_abs (at numbers.now j) ≤ 2 ^ 127 - 1 }
    ensures value { (j : ℕ) → j < 16 → at result j ≡ quotient divisor (at numbers.now j) }
    ensures full { length result ≡ 16 }
    ensures small { (j : ℕ) → unsigned_abs (at result j) ≤ 2 ^ 127 - 1 }
{
    let mut out = [0i128; 16];
    for j in 0..16 {
        out[j] = quotient(&numbers[j], divisor);
    }
    out
}
