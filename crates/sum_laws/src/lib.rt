//! What the weights of the rows of a program sum to: the total.
//!
//! Glossary:
//! - *word of outcomes*, *weight of a word*, *rows*, *total*: those of `comb_laws` (`comb_laws/specs/Plans.antt`).
//! - *letters at gaps*, *tests in time*: those of `move_laws` and `run_laws`.
//! - *weight of rows*: the sum of their weights (`specs/RowSums.antt`).
//! - *words share the weight*, *rows share the weight*, *rows sum to the total*: the laws (`specs/RowSums.antt`).
#![tactic(auto)]

pub mod laws;
