//! What the live words of a run mean, whatever engine makes them and whatever schedule its turns follow.
//!
//! Glossary:
//! - *faithful engine*: one that does to states what the operators do to the vectors that the states stand for
//!   (`specs/Meaning.antt`, [`Meaning`]).
//! - *vector of a word*: what the letters of a plan make of the start's, each outcome read at its place in the word.
//! - *live words at the end*: each with a state that stands for its vector, and every word whose vector isn't zero
//!   among them (`specs/Meaning.antt`).
//! - *exact engine*: one that makes nothing zero, so that its live words are exactly those ([`Exact`]).
//! - *comb vectors*: what both engines' states stand for, a vector over the paths of strands (`specs/Combs.antt`).
//! - *letters in time*: each measurement comes before the letters that test its outcome (`specs/Timely.antt`).
//! - *schedule*: the sites in the order of their turns; legal where each stands in it as often as it has commands
//!   (`specs/Turns.antt`).
//! - *far commutation*: operators at gaps with another gap between them may be made in either order
//!   (`specs/Schedules.antt`).
//! - *rows of a plan*: the words whose vector has a weight that isn't zero, in the order of lists of labels
//!   (`specs/Rows.antt`).
#![tactic(auto)]

pub mod laws;
mod meaning;

pub use meaning::{Exact, Meaning};

#[cfg(test)]
mod tests;
