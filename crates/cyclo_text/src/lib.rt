//! The words of cyclotomic numbers, read and written.
//!
//! Glossary:
//! - *part*: the spelling of one numerator; *pieces*: what stands between separators
//!   (`specs/NumberWords.antt`).
//! - *number of a word*: the number that a word spells in a ring, or why there is none
//!   (`specs/NumberWords.antt`).
//! - *canonical spelling*: the one word that is written for a number (`specs/NumberWords.antt`).
#![tactic(auto)]

mod digits;
mod fault;
mod pieces;
mod read;
mod write;

pub use fault::NumberWord;
pub use read::read_number;
pub use write::write_number;

#[cfg(test)]
mod tests;
