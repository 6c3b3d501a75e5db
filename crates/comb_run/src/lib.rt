//! The engine of braid programs on left-combed fusion trees, by path.
//!
//! Glossary:
//! - *key*: the labels of a path's nodes, x_2 .. x_n, which with the strands tell the path (`specs/Entries.antt`, `path_of`).
//! - *entries*: a comb vector by the keys of the paths whose value isn't zero (`specs/Entries.antt`).
//! - *kept kernels*: the kernels of one operator by their six labels, each evaluated once (`specs/Kept.antt`).
//! - *stated evaluation*: which products, sums and conjugates arise, in their order (`specs/Evaluated.antt`).
//! - *state*: the strands of a word, and its vector over them (`specs/States.antt`); runs of words over such states are
//!   those of `word_runs`.
//! - *stands for*: a state stands for its strands and its vector over them (`specs/Meaning.antt`), so the rows of a run are
//!   those of the plan.
//! - *comb run*: the total and the rows of a well formed program on a left-combed tree, in a category (`comb_run`).
#![tactic(auto)]

mod act;
mod comb;
mod engine;
mod kernel;
mod kernels;
mod key;
mod meaning;
mod parts;
mod start;
mod state;
mod vector;
mod weigh;

pub use comb::comb_run;
