//! States divided by a charge, and what they weigh.
//!
//! Glossary:
//! - *part*: the amplitudes with one label at a gap, on the same tree (`specs/Splits.antt`).
//! - *weight*: the sum over the keys of a state of the weights of the key's nodes times the amplitude and its conjugate
//!   (`specs/Weights.antt`).
#![tactic(auto)]

mod parts;
mod weigh;

pub use parts::split;
pub use weigh::weight;
