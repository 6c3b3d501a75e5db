ghost use Rattle.std.specs.Prelude.{◌≡◌, ◌<◌, ◌≤◌, ◌∷◌, [], List, length, slice_get, option_copied, MatchOption, None, Some};
ghost use Rattle.line_text.specs.Text.{is_byte, parts_of, words_of, all_printable, first_cause, is_skipped};

use crate::fault::LineCause;
use crate::line::LINE_LIMIT;

/// What stands before the first such byte, and behind it.
pub(crate) fn split_part(text: &[u8], at: u8) -> Option<(&[u8], &[u8])>
    ensures parts { MatchOption result (text.now ≡ []) (λ part. parts_of at text.now ≡ part.0.now ∷ parts_of at part.1.now) }
    ensures shorter { MatchOption result (text.now ≡ []) (λ part. length part.1.now < length text.now) }
{
    if text.is_empty() {
        return None;
    }
    for (i, byte) in text.iter().enumerate() {
        if *byte == at {
            return Some((&text[..i], &text[i + 1..]));
        }
    }
    Some((text, &[]))
}

/// The first word of a line, and what stands behind it.
pub(crate) fn first_word(line: &[u8]) -> Option<(&[u8], &[u8])>
    ensures words { MatchOption result (words_of line.now ≡ []) (λ word. words_of line.now ≡ word.0.now ∷ words_of word.1.now) }
    ensures shorter { MatchOption result (words_of line.now ≡ []) (λ word. length word.1.now < length line.now) }
    ensures some { MatchOption result (words_of line.now ≡ []) (λ word. 0 < length word.0.now) }
{
    let mut rest = line;
    while let Some((part, after)) = split_part(rest, b' ') {
        if !part.is_empty() {
            return Some((part, after));
        }
        rest = after;
    }
    None
}

/// The word at a place.
pub(crate) fn word_at(line: &[u8], place: usize) -> Option<&[u8]>
    ensures { option_copied result ≡ slice_get (words_of line.now) place }
{
    let mut rest = line;
    let mut left = place;
    while let Some((word, after)) = first_word(rest) {
        if left == 0 {
            return Some(word);
        }
        left -= 1;
        rest = after;
    }
    None
}

/// Whether a line has no word, or is a comment.
pub(crate) fn is_skipped_line(line: &[u8]) -> bool
    ensures { result ≡ is_skipped line.now }
{
    match first_word(line) {
        Some((word, _)) => word[0] == b'#',
        None => true,
    }
}

/// Why a line can't be read.
pub(crate) fn fault_of(line: &[u8]) -> Option<LineCause>
    ensures { result ≡ first_cause line.now }
{
    if line.len() > LINE_LIMIT {
        return Some(LineCause::TooLong);
    }
    if !is_printable(line) {
        return Some(LineCause::NotAscii);
    }
    None
}

fn is_printable(line: &[u8]) -> bool
    ensures { result ≡ all_printable line.now }
{
    for byte in line {
        if *byte < b' ' || b'~' < *byte {
            return false;
        }
    }
    true
}
