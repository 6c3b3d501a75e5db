//! Runs on fusion trees of any shape.
//!
//! Glossary:
//! - *entries*: the keys whose number isn't zero, in their order, each with its number (`specs/Trees.antt`).
//! - *stated evaluation*: what a raise, an exchange and a measurement make of a state, and which items of it have to fit
//!   (`specs/Trees.antt`); and where the turns of a program under a schedule end (`specs/Evaluated.antt`). Runs of words over
//!   such states are those of `word_runs`.
//! - *turns*: the letters of a program in the order of a schedule, as `site_schedule` has them.
//! - *row*: a word of outcomes and its weight ([`Row`](outcome_rows::Row)).
//! - *stands for*: a state of the engine stands for its strands and its comb vector (`specs/Meaning.antt`); so the rows of
//!   a run are those of the plan, whatever the schedule (`specs/Outcomes.antt`).
#![tactic(auto)]

mod ends;
mod engine;
pub mod laws;
mod meaning;
mod plans;
mod steps;
mod turns;

pub use engine::TreeEngine;
pub use plans::{run, trees};
