//! Braid programs on left-combed fusion trees, by path: definitions and laws.
//!
//! Glossary:
//! - *comb path*: the labels `x_0 .. x_n` along a left-combed tree, where x_0 is the unit and x_k occurs in
//!   `x_(k-1)` times the strand `s_k` (`specs/Paths.antt`).
//! - *comb vector*: a ring value at each path (`specs/Paths.antt`).
//! - *operator*: what acts at a gap, an exchange or the projection on a charge (`Operator`).
//! - *comb braid*, *comb projection*, *comb weight*: what braids, outcomes of measurements and weights are
//!   on comb vectors (`specs/Operators.antt`).
//! - *state of a word*: the strands and the vector under the letters of a plan, each outcome read at its place
//!   (`specs/Words.antt`).
//! - *path amplitude*: the value of a labelled tree along a path (`specs/Amplitudes.antt`).
//! - *start vector*: the path amplitudes of the start tree from the unit (`specs/Amplitudes.antt`).
//! - *own vector*: one at the path of a left-combed tree's own labels, else zero (`specs/Amplitudes.antt`).
//! - *inner weight*, *inner outcomes*: those without the first strand's factor, from the own vector, which an
//!   engine may evaluate (`specs/Inner.antt`); in a category they are the weight and the outcomes
//!   (`specs/Laws.antt`).
//! - *rows of a plan*: the words of outcomes whose weight isn't zero (`specs/Plans.antt`).
#![tactic(auto)]

pub mod laws;
mod operator;

pub use operator::Operator;
