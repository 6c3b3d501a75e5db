//! The table of the cyclotomic polynomials.
ghost use Rattle.std.specs.Prelude.{◌≡◌, ◌↔◌, IsTrue, IsSome, IfSome};
ghost use Rattle.poly_core.specs.Roots.{root_at, is_listed};

/// The coefficients of the cyclotomic polynomial of n below the top one, which is 1: phi(n) of them, low
/// coefficient first. There are none where n is no accepted root.
#[tactic(auto, unfolding(crate::specs::Roots::root_at, crate::specs::Roots::is_listed))]
pub fn low_coefficients(n: u8) -> Option<&'static [i8]>
    ensures listed { IsSome result ↔ IsTrue (is_listed n) }
    ensures value { IfSome result (λ low. low.now ≡ (root_at n).low) }
{
    match n {
        1 => Some(&[-1]),
        2 => Some(&[1]),
        3 => Some(&[1, 1]),
        4 => Some(&[1, 0]),
        5 => Some(&[1, 1, 1, 1]),
        6 => Some(&[1, -1]),
        7 => Some(&[1, 1, 1, 1, 1, 1]),
        8 => Some(&[1, 0, 0, 0]),
        9 => Some(&[1, 0, 0, 1, 0, 0]),
        10 => Some(&[1, -1, 1, -1]),
        11 => Some(&[1, 1, 1, 1, 1, 1, 1, 1, 1, 1]),
        12 => Some(&[1, 0, -1, 0]),
        13 => Some(&[1, 1, 1, 1, 1, 1, 1, 1, 1, 1, 1, 1]),
        14 => Some(&[1, -1, 1, -1, 1, -1]),
        15 => Some(&[1, -1, 0, 1, -1, 1, 0, -1]),
        16 => Some(&[1, 0, 0, 0, 0, 0, 0, 0]),
        17 => Some(&[1, 1, 1, 1, 1, 1, 1, 1, 1, 1, 1, 1, 1, 1, 1, 1]),
        18 => Some(&[1, 0, 0, -1, 0, 0]),
        20 => Some(&[1, 0, -1, 0, 1, 0, -1, 0]),
        21 => Some(&[1, -1, 0, 1, -1, 0, 1, 0, -1, 1, 0, -1]),
        22 => Some(&[1, -1, 1, -1, 1, -1, 1, -1, 1, -1]),
        24 => Some(&[1, 0, 0, 0, -1, 0, 0, 0]),
        26 => Some(&[1, -1, 1, -1, 1, -1, 1, -1, 1, -1, 1, -1]),
        28 => Some(&[1, 0, -1, 0, 1, 0, -1, 0, 1, 0, -1, 0]),
        30 => Some(&[1, 1, 0, -1, -1, -1, 0, 1]),
        32 => Some(&[1, 0, 0, 0, 0, 0, 0, 0, 0, 0, 0, 0, 0, 0, 0, 0]),
        34 => Some(&[1, -1, 1, -1, 1, -1, 1, -1, 1, -1, 1, -1, 1, -1, 1, -1]),
        36 => Some(&[1, 0, 0, 0, 0, 0, -1, 0, 0, 0, 0, 0]),
        40 => Some(&[1, 0, 0, 0, -1, 0, 0, 0, 1, 0, 0, 0, -1, 0, 0, 0]),
        42 => Some(&[1, 1, 0, -1, -1, 0, 1, 0, -1, -1, 0, 1]),
        48 => Some(&[1, 0, 0, 0, 0, 0, 0, 0, -1, 0, 0, 0, 0, 0, 0, 0]),
        60 => Some(&[1, 0, 1, 0, 0, 0, -1, 0, -1, 0, -1, 0, 0, 0, 1, 0]),
        _ => None,
    }
}
