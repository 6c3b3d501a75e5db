//! Texts of categories: names of labels, fusion rules, the symbols F, R, w and v over the numbers of one root, and in
//! version 2 the marks of labels, their twists and loop values.
//!
//! Glossary:
//! - *head*: the lines `category 1` or `category 2`, `root N` and `labels` with the names, the unit first
//!   (`specs/Reading.antt`).
//! - *fuse line*: one triple of labels; the unit triples are there without lines (`specs/Reading.antt`).
//! - *symbol line*: the value of one symbol at an admissible index; a symbol without a line is 1 (`specs/Reading.antt`).
//! - *mark*: the twist or the loop value of a label; its line is a symbol line of version 2, and a mark without a line
//!   is 1 (`specs/Reading.antt`, `has_kind`).
//! - *line kind*: what a line behind the head gives by its first word; fuse lines stand before all symbol lines
//!   (`specs/Reading.antt`, `line_kind`).
//! - *named symbols*: the root, the names, the triples and the values that were set, as contracts see what a text says
//!   (`specs/Named.antt`).
//! - *category of a text*: its named symbols, or the first line that is refused, with its first cause
//!   (`specs/Reading.antt`, `category_of`).
//! - *canonical text*: the one text that is written for named symbols (`specs/Canonical.antt`).
//! - *spelled text*: the lines of a head, new triples and values of new indices, one behind the other
//!   (`specs/Spelled.antt`).
//! - *what can be said*: what every value of the code's type is: names, labels, triples and numbers that go together
//!   (`specs/Again.antt`, `IsSaid`).
//! - *same category*: the same version, root, names and triples, and the same symbols at all labels (`specs/Again.antt`,
//!   `SameSymbols`).
#![tactic(auto)]

mod fault;
mod head;
mod kind;
mod laws;
mod line_reading;
mod named;
mod reading;
mod symbol_line;
mod symbols;
mod words;
mod writing;

pub use fault::{CategoryCause, CategoryFault};
pub use laws::{canonical_texts, spelled_categories};
pub use named::Named;
pub use reading::read_category;
pub use writing::{write_category, write_parts};

#[cfg(test)]
mod tests;
