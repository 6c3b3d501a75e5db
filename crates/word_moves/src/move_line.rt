//! One line of a moves text.

ghost use Rattle.std.specs.Prelude.{◌≡◌, Some};
ghost use Rattle.line_text.specs.Text.{words_of};
ghost use Rattle.word_moves.specs.Reading.{insertion_in, insertion_of, move_in, number_in, place_in, sign_of};

use crate::fault::MovesCause;
use crate::moves::BraidMove;
use crate::words::has_words;
use line_text::{Line, plain_number};
use program_text::Sign;

/// The move that a line says.
pub(crate) fn read_move(line: &Line) -> Result<BraidMove, MovesCause>
    ensures { result ≡ move_in (words_of line.now.text.now) }
{
    if line.has_word(0, b"cancel") {
        return match read_place(line) {
            Ok(place) => Ok(BraidMove::Cancel { place }),
            Err(cause) => Err(cause),
        };
    }
    if line.has_word(0, b"insert") {
        return read_insertion(line);
    }
    if line.has_word(0, b"far") {
        return match read_place(line) {
            Ok(place) => Ok(BraidMove::Far { place }),
            Err(cause) => Err(cause),
        };
    }
    if line.has_word(0, b"yb") {
        return match read_place(line) {
            Ok(place) => Ok(BraidMove::Yb { place }),
            Err(cause) => Err(cause),
        };
    }
    Err(MovesCause::Command)
}

/// The place of a line with one number.
fn read_place(line: &Line) -> Result<u32, MovesCause>
    ensures { result ≡ place_in (words_of line.now.text.now) }
{
    if !has_words(line, 2) {
        return Err(MovesCause::Command);
    }
    read_number(line, 1)
}

fn read_insertion(line: &Line) -> Result<BraidMove, MovesCause>
    ensures { result ≡ insertion_in (words_of line.now.text.now) }
{
    if !has_words(line, 4) {
        return Err(MovesCause::Command);
    }
    match read_sign(line.word_or_empty(3)) {
        Some(sign) => insertion_of(line, sign),
        None => Err(MovesCause::Command),
    }
}

/// The insertion of a sign.
fn insertion_of(line: &Line, sign: Sign) -> Result<BraidMove, MovesCause>
    ensures { result ≡ insertion_of (words_of line.now.text.now) (Some sign) }
{
    match read_number(line, 1) {
        Ok(place) => match read_number(line, 2) {
            Ok(gap) => Ok(BraidMove::Insert { place, gap, sign }),
            Err(cause) => Err(cause),
        },
        Err(cause) => Err(cause),
    }
}

/// The number that a word is.
fn read_number(line: &Line, at: usize) -> Result<u32, MovesCause>
    ensures { result ≡ number_in (words_of line.now.text.now) at }
{
    plain_number(line.word_or_empty(at)).ok_or(MovesCause::Place)
}

fn read_sign(word: &[u8]) -> Option<Sign>
    ensures { result ≡ sign_of word.now }
{
    if word == b"+".as_slice() {
        return Some(Sign::Plus);
    }
    if word == b"-".as_slice() {
        return Some(Sign::Minus);
    }
    None
}
