//! What moves ask of the letters at their place.

ghost use Rattle.std.specs.Prelude.{◌≡◌, ◌<◌, ◌+◌, ◌||◌, ◌==◌};
ghost use Rattle.word_moves.specs.Moves.{are_far, are_inverse, are_neighbours, opposite, same_letter, same_sign};

use program_text::{Letter, Sign};

/// The sign of a braid's inverse.
pub(crate) fn opposite(sign: Sign) -> Sign
    ensures { result ≡ opposite sign }
{
    match sign {
        Sign::Plus => Sign::Minus,
        Sign::Minus => Sign::Plus,
    }
}

fn same_sign(first: Sign, second: Sign) -> bool
    ensures { result ≡ same_sign first second }
{
    match (first, second) {
        (Sign::Plus, Sign::Plus) | (Sign::Minus, Sign::Minus) => true,
        (Sign::Plus, Sign::Minus) | (Sign::Minus, Sign::Plus) => false,
    }
}

pub(crate) fn same_letter(first: Letter, second: Letter) -> bool
    ensures { result ≡ same_letter first second }
{
    match (first, second) {
        (
            Letter::Crossing { gap, sign },
            Letter::Crossing {
                gap: other,
                sign: turn,
            },
        ) => gap == other && same_sign(sign, turn),
        (
            Letter::Charge { gap, place },
            Letter::Charge {
                gap: other,
                place: back,
            },
        ) => gap == other && place == back,
        (
            Letter::Tested {
                gap,
                sign,
                place,
                label,
            },
            Letter::Tested {
                gap: other,
                sign: turn,
                place: back,
                label: name,
            },
        ) => gap == other && same_sign(sign, turn) && (place == back && label == name),
        (Letter::Still { gap }, Letter::Still { gap: other }) => gap == other,
        _ => false,
    }
}

/// Whether two letters are a braid and its inverse.
pub(crate) fn are_inverse(first: Letter, second: Letter) -> bool
    ensures { result ≡ are_inverse first second }
{
    match (first, second) {
        (
            Letter::Crossing { gap, sign },
            Letter::Crossing {
                gap: other,
                sign: turn,
            },
        ) => gap == other && same_sign(turn, opposite(sign)),
        _ => false,
    }
}

/// Whether two letters are braids at gaps with another one between them.
pub(crate) fn are_far(first: Letter, second: Letter) -> bool
    ensures { result ≡ are_far first second }
{
    match (first, second) {
        (Letter::Crossing { gap, .. }, Letter::Crossing { gap: other, .. }) => {
            u32::from(gap) + 1 < u32::from(other) || u32::from(other) + 1 < u32::from(gap)
        }
        _ => false,
    }
}

/// Whether two letters are braids of one sign at neighbouring gaps.
pub(crate) fn are_neighbours(first: Letter, second: Letter) -> bool
    ensures { result ≡ are_neighbours first second }
{
    match (first, second) {
        (
            Letter::Crossing { gap, sign },
            Letter::Crossing {
                gap: other,
                sign: turn,
            },
        ) => same_sign(sign, turn) && are_beside(u32::from(gap), u32::from(other)),
        _ => false,
    }
}

/// Whether one number comes right behind the other.
fn are_beside(first: u32, second: u32) -> bool
    requires first { first < 256 }
    requires second { second < 256 }
    ensures { result ≡ (second == first + 1 || first == second + 1) }
{
    second == first + 1 || first == second + 1
}
