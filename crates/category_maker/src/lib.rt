//! A large input from a number: a category, a program and a schedule as texts.
//!
//! Glossary:
//! - *category of n*: the labels are the numbers below n, which fuse to their sum modulo n; R(a,b,c) is the power ab of the
//!   root of unity of order n, and every other symbol is 1 (`specs/MadeCategory.antt`).
//! - *program of n*: sixteen strands, of which strand k has the label k mod n, in a left comb; two sites of eight strands with
//!   1,024 commands each (`specs/MadeProgram.antt`).
//! - *schedule*: the sites in turns (`specs/MadeSchedule.antt`).
#![tactic(auto)]

mod category;
mod commands;
mod laws;
mod making;
mod names;
mod powers;
mod program;
mod rules;
mod schedule;
mod start;

pub use laws::{made_categories, made_programs, made_schedules};
pub use making::{Made, MakeFault, make};

#[cfg(test)]
mod tests;
