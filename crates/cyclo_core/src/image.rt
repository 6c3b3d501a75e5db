//! The numerators of an image, where z^k is put for z: exact, or too large.
ghost use Rattle.std.specs.Prelude.{◌≡◌, ℕ, ◌-◌, ◌^◌, ◌<◌, ◌≤◌, ◌↔◌, pos, unsigned_abs, IsOk, IfOk, length};
ghost use Rattle.poly_core.specs.Rho.{degree};
ghost use Rattle.poly_core.specs.Table.{at};
ghost use Rattle.cyclo_core.specs.Image.{image_term, image_over, image_size_term, image_size};
ghost use Rattle.cyclo_core.specs.Sums.{int_sum, nat_sum};

use crate::sums::{places, power_at};
use crate::tally::{Tally, add_product};
use poly_core::PowerTable;
use ring_laws::Overflow;

/// The numerator at j of an image.
#[tactic(auto, using(crate::proofs::SumLemmas::sums))]
fn image_numerator(powers: &PowerTable, k: u8, x: &[i128; 16], j: usize) -> Result<i128, Overflow>
    requires { j < degree powers.now }
    ensures fits { (image_size powers.now k (at x.now) j ≤ 2 ^ 127 - 1) ↔ IsOk result }
    ensures value { IfOk result (λ z. z ≡ image_over powers.now k (at x.now) j) }
    ensures small { IfOk result (λ z. unsigned_abs z ≤ 2 ^ 127 - 1) }
{
    let mut tally = Tally::new();
    let end = places(powers);
    for a in 0..end {
        tally = add_product(tally, &x[a], &power_at(powers, a * usize::from(k), j))?;
    }
    Ok(tally.total())
}

/// The numerators of an image, before cancelling.
pub fn image_numerators(powers: &PowerTable, k: u8, x: &[i128; 16]) -> Result<[i128; 16], Overflow>
    ensures fits { ((j : ℕ) → j < degree powers.now → image_size powers.now k (at x.now) j ≤ 2 ^ 127 - 1) ↔ IsOk result }
    ensures value { IfOk result (λ z. (j : ℕ) → j < degree powers.now → at z j ≡ image_over powers.now k (at x.now) j) }
    ensures rest { IfOk result (λ z. (j : ℕ) → degree powers.now ≤ j → at z j ≡ pos 0) }
    ensures small { IfOk result (λ z. (j : ℕ) → unsigned_abs (at z j) ≤ 2 ^ 127 - 1) }
{
    let mut out = [0i128; 16];
    let end = places(powers);
    for j in 0..end {
        out[j] = image_numerator(powers, k, x, j)?;
    }
    Ok(out)
}
