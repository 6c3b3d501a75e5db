//! The spelling of names.

ghost use Rattle.std.specs.Prelude.{◌≡◌, IfOk, string_bytes, true};
ghost use Rattle.fusion_rules.specs.Names.{is_name, is_name_byte, all_name_bytes};

use std::alloc::{AllocError, Global};
use std::str;

/// The most bytes of a name.
const LONGEST: usize = 8;

/// Whether a byte is a letter, a digit or `_`.
pub(crate) fn is_name_byte(byte: u8) -> bool
    ensures { result ≡ is_name_byte byte }
{
    byte.is_ascii_alphanumeric() || byte == b'_'
}

/// Whether each byte of a word is a letter, a digit or `_`.
pub(crate) fn all_name_bytes(word: &[u8]) -> bool
    ensures { result ≡ all_name_bytes word.now }
{
    for byte in word {
        if !is_name_byte(*byte) {
            return false;
        }
    }
    true
}

/// Whether a word has 1 to 8 bytes, each a letter, a digit or `_`.
pub(crate) fn is_name(word: &[u8]) -> bool
    ensures { result ≡ is_name word.now }
{
    !word.is_empty() && word.len() <= LONGEST && all_name_bytes(word)
}

/// A name of one's own.
pub(crate) fn own_name(alloc: Global, word: &[u8]) -> Result<String, AllocError>
    requires { is_name word.now ≡ true }
    ensures { IfOk result (λ name. string_bytes name ≡ word.now) }
{
    match str::from_utf8(word) {
        Ok(text) => String::from_str(alloc, text),
        Err(_) => unreachable!(),
    }
}
