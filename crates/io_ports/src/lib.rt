//! The outside as the program sees it: texts by name that are read a piece at a time, and a sink
//! of bytes. Both are traits, so that every promise above them can be stated and tried in memory.
//!
//! Glossary:
//! - *shelf*: texts by name. It may tell its map of names to texts, and it counts faults by name
//!   (`specs/Ports.antt`, [`Shelf`]).
//! - *sink*: takes bytes. It may tell what it took, and it counts its faults ([`Sink`]).
//! - *fault*: a call that fails. It comes only with a count that rose, or that stands at
//!   `u64::MAX`, the last value of every count (`Rose` of `specs/Ports.antt`).
//! - *piece*: what one read gives of a text (`PieceOf` of `specs/Ports.antt`).
//! - *step*: the most bytes that one call of a shelf or a sink in memory moves
//!   (`specs/Memory.antt`).
#![tactic(auto)]

mod loading;
mod memory;
mod outside;
mod shelves;
mod sinks;
mod writing;

pub use loading::{LoadFault, load};
pub use memory::{MemShelf, MemSink, SureShelf};
pub use outside::{FileShelf, OutSink};
pub use shelves::{Failed, Shelf};
pub use sinks::Sink;
pub use writing::{SinkFailed, put_all};

#[cfg(test)]
mod tests;
