//! Marks texts: the twists and loop values by which a category of version 1 becomes one of version 2.
//!
//! Glossary:
//! - *mark*: the twist or the loop value of a label; a label without a line has the mark 1.
//! - *line of a mark*: `twist LABEL NUMBER` or `loop LABEL NUMBER` (`specs/Reading.antt`, `mark_line_of`).
//! - *category with the marks of a text*: the same names, root, triples and symbols in version 2, with the marks set,
//!   or the first line that is refused, with its first cause (`specs/Reading.antt`, `marks_in`).
#![tactic(auto)]

mod fault;
mod header;
mod mark;
mod mark_line;
mod reading;
mod words;

pub use fault::{MarksCause, MarksFault};
pub use reading::read_marks;

#[cfg(test)]
mod tests;
