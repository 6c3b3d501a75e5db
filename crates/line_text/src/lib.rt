//! The lines of a text and their words, with the places of faults.
//!
//! Glossary:
//! - *line*: bytes up to the byte 0x0A, or up to the text's end; counted from 1. A text that ends with 0x0A has no
//!   further line (`specs/Text.antt`, `lines_of`).
//! - *fault of a line*: more than 1,024 bytes, else a byte outside 0x20 to 0x7E (`first_cause`).
//! - *word*: a longest run of bytes that aren't spaces (`words_of`).
//! - *skipped line*: one without a word, or whose first word begins with `#`. It is counted, and never given (`skips`).
//! - *what is ahead*: the lines that a reader will find, up to the first that can't be read (`Found`, `Reading`).
//! - *spelled lines*: the one way to write lines that are given as words (`specs/Spelling.antt`).
//! - *writers*: what appends words, numbers and lines to bytes, and leaves the bytes as they were where memory is wanting
//!   (`specs/Writing.antt`, `Appends`).
//! - *plain number*: `0`, or a digit from 1 to 9 and further digits, nine digits at most (`specs/Plain.antt`).
#![tactic(auto)]

mod fault;
mod laws;
mod line;
mod lines;
mod number;
mod parts;
mod writing;

pub use fault::{LineCause, LineFault};
pub use laws::spelled_lines;
pub use line::{LINE_LIMIT, Line};
pub use lines::Lines;
pub use number::plain_number;
pub use writing::{cut_back, end_line, write_line, write_plain_number, write_word, write_words};

#[cfg(test)]
mod tests;
