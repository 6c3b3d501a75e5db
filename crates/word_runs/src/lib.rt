//! Runs of plans on live words, over any engine that steps and splits the state of one word.
//!
//! Glossary:
//! - *engine*: what acts on the state of one word: what it tells of states (`specs/Told.antt`), and the calls that do
//!   it ([`Engine`]).
//! - *step*: a raise or an exchange on a state; *part*: a state by the charge of a pair ([`Step`], [`Part`]).
//! - *live word*: the outcomes, each at its place in text order, and a state (`specs/Runs.antt`, `specs/Lives.antt`).
//! - *turn*: the steps that make a letter's gap a pair, and then its own (`specs/Runs.antt`).
//! - *stop*: where the stated evaluation of a run ends early, by overflow, live words or amplitudes ([`RunStop`]).
#![tactic(auto)]

mod engine;
mod fault;
mod limits;
mod live;
mod run;
mod turn;

pub use engine::{Engine, Part, Step};
pub use fault::{RunFault, RunStop, StepFault};
pub use limits::{AMPLITUDE_LIMIT, GREATEST_COUNT, WORD_LIMIT};
pub use live::LiveWord;
pub use run::{run_commands, run_letters};

#[cfg(test)]
mod tests;
