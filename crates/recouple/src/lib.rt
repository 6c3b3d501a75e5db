//! States on fusion trees, and recoupling.
//!
//! Glossary:
//! - *state*: the labels of the strands, the shape of the tree and the amplitudes by the labels of its nodes
//!   (`specs/States.antt`); what it stands for is a comb vector.
//! - *rotation*: a node, its parent and the tops of the three subtrees under them (`specs/Rotations.antt`).
//! - *start state*: amplitude one at a tree's own labels; it stands for the tree's start vector (`comb_laws`).
//! - *source*: an old amplitude and a new key to which it adds a term (`src/sources.rt`); the new keys of all sources are
//!   the targets (`specs/Targets.antt`).
//! - *raise*: the amplitudes after a node was raised over its parent (`specs/Raises.antt`).
#![tactic(auto)]

mod begin;
mod factors;
mod keys;
mod raising;
mod rotation;
mod sources;
mod state;
mod terms;

pub use begin::start;
pub use state::TreeState;
