ghost use Rattle.std.specs.Prelude.{◌≡◌, MatchOption, false, true, length, ◌≤◌};
ghost use Rattle.fusion_rules.specs.Names.{is_name, all_name_bytes, is_name_byte};

use arrayvec::ArrayString;
use std::str;

/// The most bytes of a name.
const LONGEST: usize = 8;

/// A name in the value itself, where the word is one.
pub(crate) fn small_name(word: &[u8]) -> Option<ArrayString<LONGEST>>
    ensures { MatchOption result (is_name word.now ≡ false)
        (λ name. (is_name word.now ≡ true) × (name.bytes ≡ word.now)) }
{
    if !is_name(word) {
        return None;
    }
    let text = str::from_utf8(word).ok()?;
    ArrayString::from(text).ok()
}

/// Whether a word has 1 to 8 bytes, each a letter, a digit or `_`.
pub fn is_name(word: &[u8]) -> bool
    ensures { result ≡ is_name word.now }
{
    if word.is_empty() || word.len() > LONGEST {
        return false;
    }
    for byte in word {
        if !byte.is_ascii_alphanumeric() && *byte != b'_' {
            return false;
        }
    }
    true
}
