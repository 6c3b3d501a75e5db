//! Moves of braid letters: how one program is made of another by cancelling, inserting, exchanging and turning braids.
//!
//! Glossary:
//! - *letters of a program*: the letters of its commands without the raises, in the order of the text
//!   (`specs/Moves.antt`, `moving_letters`).
//! - *move*: a change of a few letters at a place counted from 1; the others stay (`moved`).
//! - *linked*: moves lead from one list of letters to the other (`specs/Verdicts.antt`, `AreLinked`).
//! - *pages*: the letters that moves are made on, as lists one after another (`specs/Pages.antt`, `flat`).
//! - *verdict*: whether a list of moves leads from one program to another (`verdict_of`).
//! - *moves of a text*: a move a line, or the first fault (`specs/Reading.antt`, `moves_of`).
#![tactic(auto)]

mod fault;
mod fronts;
mod header;
mod laws;
mod letters;
mod move_line;
mod moves;
mod page;
mod pages;
mod pairs;
mod push;
mod reading;
mod spot;
mod step;
mod trees;
mod verdict;
mod words;

pub use fault::{MovesCause, MovesFault};
pub use laws::linked_programs;
pub use moves::{BraidMove, Moves, Verdict};
pub use reading::read_moves;
pub use verdict::linked;

#[cfg(test)]
mod tests;
