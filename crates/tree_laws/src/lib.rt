//! What labelled fusion trees and states on them stand for, and that recoupling keeps it.
//!
//! Glossary:
//! - *path amplitude*: the value of a tree with labels along a path (`specs/Trees.antt`).
//! - *recoupled amplitudes*: those after a node was raised over its parent, by F where it was the left child and by H
//!   where it was the right one (`specs/Recoupling.antt`).
//! - *surroundings*: what a path amplitude has around a subtree (`specs/Surroundings.antt`).
//! - *comb braid*, *comb projection*: what an exchange and a split at a pair are along paths (`specs/Operators.antt`).
//! - *weight*: of a vector along paths, and of a state by the nodes of its tree (`specs/Weights.antt`).
//! - *entries*: keys of labels by gap with their amplitudes, and what they stand for (`specs/Entries.antt`).
#![tactic(auto)]

pub mod laws;
