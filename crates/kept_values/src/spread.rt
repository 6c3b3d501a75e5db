//! How equal values are found again.
ghost use Rattle.std.specs.Prelude.{◌<◌, ◌≤◌};

use cyclo_core::{Cyclo, Number};
use ring_laws::{Int, StarRing, Whole};

/// A ring whose values are spread over 64 bits.
pub trait Spread: StarRing {
    /// A number by which an equal value is found again.
    ///
    /// It promises nothing, and needs to promise nothing: a value that is found by it is compared before it is
    /// taken for the same, and one that isn't found is kept once more. So values that differ may have the same
    /// number, equal values different ones, and only speed and memory rest on it.
    fn spread(&self, x: &Self::Elem) -> u64;
}

/// Sixty-four bits, mixed with a number of 128 bits.
#[tactic(auto, using(std::proofs::lemmas::Nat::and_le_r))]
fn mixed(spread: u64, x: i128) -> u64 {
    let low = (x.unsigned_abs() & 0xFFFF_FFFF_FFFF_FFFF) as u64;
    let word = if x < 0 {
        low.wrapping_add(0x1234_5678_9ABC_DEF1)
    } else {
        low
    };
    (spread ^ word)
        .wrapping_mul(0x9E37_79B9_7F4A_7C15)
        .rotate_left(29)
}

impl Spread for Whole {
    fn spread(&self, x: &Int) -> u64 {
        mixed(0, x.get())
    }
}

impl Spread for Cyclo {
    fn spread(&self, x: &Number) -> u64 {
        let mut spread = mixed(0, x.denominator());
        for j in 0..16 {
            spread = mixed(spread, x.numerator(j));
        }
        spread
    }
}
