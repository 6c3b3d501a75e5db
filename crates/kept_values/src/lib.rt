//! Ring values that are kept once and told by a number, with the products and sums that were formed before.
//!
//! Glossary:
//! - *kept values*: a ring, and some of its members in the order of their numbers (`specs/Kept.antt`).
//! - *number*: the place of a kept value, from 0; 0 is the zero of the ring.
//! - *grows*: kept numbers keep their values (`specs/Kept.antt`).
//! - *numbered answer*: the number of what an evaluation gives, or too large where it stops
//!   (`specs/Kept.antt`).
//! - *memo*: two numbers, and the numbered answer of their product or sum (`specs/Kept.antt`).
#![tactic(auto)]

mod kept;
mod memo;
mod spread;

pub use kept::{Kept, Stop};
pub use spread::Spread;

#[cfg(test)]
mod tests;
