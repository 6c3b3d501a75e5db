ghost use Rattle.std.specs.Prelude.{◌≡◌, ◌<◌, ◌^◌, IfSome};
ghost use Rattle.std.specs.Str.{all_ascii_digits};
ghost use Rattle.line_text.specs.Plain.{is_plain_number, plain_number_of};

const DIGITS: usize = 9;

/// The number of a word that is `0`, or a digit from 1 to 9 followed by digits, nine digits at most. None exactly
/// where the word isn't of this form.
pub fn plain_number(word: &[u8]) -> Option<u32>
    ensures number { result ≡ plain_number_of word.now }
    ensures below { IfSome result (λ n. n < 10 ^ 9) }
{
    if !is_plain(word) {
        return None;
    }
    let mut value = 0u32;
    for digit in word {
        value = value * 10 + u32::from(*digit - b'0');
    }
    Some(value)
}

/// Whether a word is a plain number.
fn is_plain(word: &[u8]) -> bool
    ensures { result ≡ is_plain_number word.now }
{
    match word {
        [first, rest @ ..] => {
            rest.len() < DIGITS && all_digits(word) && (*first != b'0' || rest.is_empty())
        }
        [] => false,
    }
}

fn all_digits(word: &[u8]) -> bool
    ensures { result ≡ all_ascii_digits word.now }
{
    for byte in word {
        if !byte.is_ascii_digit() {
            return false;
        }
    }
    true
}
