//! What a run answers: the words of outcomes that have a weight.
//!
//! Glossary:
//! - *row*: a word of outcomes and its weight ([`Row`]).
//! - *outcomes*: the total and the rows, as the definition of a plan's rows has them (`specs/Rows.antt`).
//! - *word order*: the order of lists of labels, in which live words are sorted (`specs/WordOrder.antt`).
//! - *ends of letters*: the live words at the end of a run in whatever order of turns, with their weights evaluated, and where
//!   this stops (`specs/Ends.antt`).
//! - *commands of a text*: those of all sites, in the order of the text ([`text_commands`]); that they may run is said in
//!   `specs/Commands.antt`.
#![tactic(auto)]

mod commands;
pub mod laws;
mod letters;
mod rows;

pub use commands::text_commands;
pub use letters::{letter_outcomes, sorted_ends};
pub use rows::{Row, Rows, rows_of_words, text_outcomes};

#[cfg(test)]
mod tests;
