//! The reports of runs, as bytes: each line ends with the byte 10, and its words stand with one space between two.
//! Numbers are canonical and labels are written by name.
//!
//! Glossary:
//! - *report*: the total, and a line for each row (`specs/Report.antt`, [`report`]).
//! - *tree report*: the strands and the shape, and for each live word its outcomes and its amplitudes
//!   (`specs/TreeReport.antt`, [`tree_report`]).
//! - *shape*: a strand is its number, counted from 1, and a node is `(L R)` (`specs/TreeReport.antt`, `shape_text`).
//! - *summary*: six lines of a run that was made from a number (`specs/Summary.antt`, [`summary`]).
#![tactic(auto)]

mod labels;
mod row_lines;
mod shape_line;
mod state_lines;
mod summary_lines;

pub use labels::write_labels;
pub use row_lines::report;
pub use state_lines::tree_report;
pub use summary_lines::{Counts, summary};

#[cfg(test)]
mod tests;
