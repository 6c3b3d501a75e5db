//! The amplitudes of a state: an ordered map from keys to numbers that aren't zero.
//!
//! Glossary:
//! - *key*: the labels of a tree's nodes, by their gaps from left to right (`specs/Amplitudes.antt`).
//! - *amplitudes*: keys in the order of lists of labels, each with its number, which isn't zero
//!   (`specs/Amplitudes.antt`).
//! - *place* of a key: how many smaller keys there are (`specs/Places.antt`).
#![tactic(auto)]

mod entry;
mod search;
mod store;

pub use entry::Key;
pub use store::Amps;

#[cfg(test)]
mod tests;
