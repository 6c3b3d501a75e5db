//! Exchanges of two strands that are a pair of the tree.
//!
//! Glossary:
//! - *exchange*: each amplitude times R, or S where the exchange is negative, at the labels of the two strands and of
//!   their node, and the strands swapped (`specs/Exchanges.antt`); it stands for the comb braid.
#![tactic(auto)]

mod act;
pub mod laws;

pub use act::exchange;
