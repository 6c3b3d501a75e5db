ghost use Rattle.std.specs.Prelude.{◌≡◌, ◌<◌, ◌≤◌, ◌+◌, ◌^◌, ◌-◌, ℕ, List, length, slice_get, option_copied};
ghost use Rattle.line_text.specs.Text.{Reading, reading_of, FindsNext, lines_of, words_of, word_in, has_word};

use crate::fault::LineFault;
use crate::line::Line;
use crate::parts::{fault_of, is_skipped_line, split_part, word_at};
use std::marker::Model;

/// A text, of which some lines have been read. Contracts see the lines that will still be found, up to the first that
/// can't be read, and the number of all lines. Nothing is copied.
#[derive(Drop)]
pub struct Lines<'a> {
    rest: &'a [u8],
    passed: u32,
}

impl<'a> Model for Lines<'a> {
    ghost Value = { Reading };

    ghost view = { λ a. reading_of a.passed a.rest.now };

    ghost invariant = { λ a. a.passed + length a.rest.now < 2 ^ 32 - 1 };
}

impl<'a> Lines<'a> {
    /// All lines of a text, none of them read.
    pub fn new(text: &'a [u8]) -> Lines<'a>
        requires { length text.now < 2 ^ 32 - 1 }
        ensures { result ≡ reading_of 0 text.now }
    {
        Lines {
            rest: text,
            passed: 0,
        }
    }

    /// The next line that is neither blank nor a comment. `None` exactly where no such line is left, and a fault exactly
    /// where a line that can't be read comes first; either is given again by the next call.
    pub fn next_line(&mut self) -> Result<Option<Line<'a>>, LineFault>
        ensures { FindsNext result self.old self.new }
    {
        while let Some((line, rest)) = split_part(self.rest, b'\n') {
            let number = self.passed + 1;
            if let Some(cause) = fault_of(line) {
                return Err(LineFault {
                    line: number,
                    cause,
                });
            }
            self.rest = rest;
            self.passed = number;
            if !is_skipped_line(line) {
                return Ok(Some(Line { number, text: line }));
            }
        }
        Ok(None)
    }

    /// The number of lines of the whole text, however many were read.
    pub fn count(&self) -> u32
        ensures count { result ≡ self.now.count }
        ensures fits { result < 2 ^ 32 - 1 }
    {
        let mut count = self.passed;
        let mut rest = self.rest;
        while let Some((_, after)) = split_part(rest, b'\n') {
            count += 1;
            rest = after;
        }
        count
    }
}

impl<'a> Line<'a> {
    /// The word at a place counted from 0. `None` exactly where the line has no more words than the place.
    pub fn word(&self, place: usize) -> Option<&'a [u8]>
        ensures { option_copied result ≡ slice_get (words_of self.now.text.now) place }
    {
        word_at(self.text, place)
    }

    /// The word at a place counted from 0, or no bytes where the line has no more words than the place.
    pub fn word_or_empty(&self, place: usize) -> &'a [u8]
        ensures { result.now ≡ word_in (words_of self.now.text.now) place }
    {
        self.word(place).unwrap_or(&[])
    }

    /// Whether this word stands at a place counted from 0.
    pub fn has_word(&self, place: usize, word: &[u8]) -> bool
        ensures { result ≡ has_word (words_of self.now.text.now) place word.now }
    {
        self.word_or_empty(place) == word
    }
}
