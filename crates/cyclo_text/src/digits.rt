//! Parts and denominators: their spelling and their values.
ghost use Rattle.std.specs.Prelude.{◌≡◌, ◌≤◌, ◌<◌, ◌^◌, ◌-◌, pos, true, false, unsigned_abs, MatchOption, IfSome};
ghost use Rattle.std.specs.Str.{all_ascii_digits};
ghost use Rattle.std.specs.Str.Parse.{digits_value};
ghost use Rattle.cyclo_text.specs.NumberWords.{is_positive, is_natural, is_minus, digits_of, is_part, signed_by, part_value, part_fits};

const GREATEST: u128 = 170_141_183_460_469_231_731_687_303_715_884_105_727;

/// The number of some digits, where it is at most 2^127 - 1.
pub fn magnitude(digits: &[u8]) -> Option<u128>
    requires { all_ascii_digits digits.now ≡ true }
    ensures fits { MatchOption result (2 ^ 127 - 1 < digits_value 10 digits.now) (λ n. digits_value 10 digits.now ≤ 2 ^ 127 - 1) }
    ensures value { IfSome result (λ n. n ≡ digits_value 10 digits.now) }
{
    let mut value = 0u128;
    for digit in digits {
        if value > GREATEST / 10 {
            return None;
        }
        value = value * 10 + u128::from(*digit - b'0');
        if value > GREATEST {
            return None;
        }
    }
    Some(value)
}

fn all_digits(digits: &[u8]) -> bool
    ensures { result ≡ all_ascii_digits digits.now }
{
    for digit in digits {
        if !digit.is_ascii_digit() {
            return false;
        }
    }
    true
}

fn is_positive(digits: &[u8]) -> bool
    ensures { result ≡ is_positive digits.now }
{
    match digits {
        [first, rest @ ..] => b'0' < *first && first.is_ascii_digit() && all_digits(rest),
        [] => false,
    }
}

/// Whether a word is `0`, or a digit from 1 to 9 and further digits.
#[tactic(auto, unfolding(crate::specs::NumberWords::is_natural))]
pub fn is_natural(word: &[u8]) -> bool
    ensures { result ≡ is_natural word.now }
{
    match word {
        [b'0'] => true,
        _ => is_positive(word),
    }
}

/// Whether a part begins with `-`, and what stands behind it.
fn sign_and_digits(part: &[u8]) -> (bool, &[u8])
    ensures minus { result.0 ≡ is_minus part.now }
    ensures digits { result.1.now ≡ digits_of part.now }
{
    match part {
        [b'-', digits @ ..] => (true, digits),
        _ => (false, part),
    }
}

/// Whether a word is `0`, or an optional `-`, a digit from 1 to 9 and further digits.
#[tactic(auto, unfolding(crate::specs::NumberWords::is_part))]
pub fn is_part(word: &[u8]) -> bool
    ensures { result ≡ is_part word.now }
{
    let (minus, digits) = sign_and_digits(word);
    if minus {
        is_positive(digits)
    } else {
        is_natural(digits)
    }
}

/// A magnitude as a number.
pub fn whole(size: u128) -> i128
    requires { size ≤ 2 ^ 127 - 1 }
    ensures { result ≡ pos size }
{
    size as i128
}

fn with_sign(minus: bool, size: u128) -> i128
    requires { size ≤ 2 ^ 127 - 1 }
    ensures value { result ≡ signed_by minus size }
    ensures small { unsigned_abs result ≡ size }
{
    if minus { -whole(size) } else { whole(size) }
}

/// The number of a part, where its magnitude is at most 2^127 - 1.
pub fn part_value(part: &[u8]) -> Option<i128>
    requires { is_part part.now ≡ true }
    ensures fits { MatchOption result (part_fits part.now ≡ false) (λ value. part_fits part.now ≡ true) }
    ensures value { IfSome result (λ value. value ≡ part_value part.now) }
    ensures small { IfSome result (λ value. unsigned_abs value ≤ 2 ^ 127 - 1) }
{
    let (minus, digits) = sign_and_digits(part);
    let size = magnitude(digits)?;
    Some(with_sign(minus, size))
}
