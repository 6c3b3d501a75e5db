//! The laws of comb vectors: what braids and measurements keep, and in which orders they may be made.
//!
//! Glossary:
//! - *comb path*, *comb vector*, *operator*, *comb braid*, *comb projection*, *comb weight*: those of `comb_laws`, on lists
//!   of labels.
//! - *weights*: a braid keeps the weight, and the charges at a gap share it (`specs/Weights.antt`).
//! - *far commutation*: operators, or letters of a plan, at gaps that aren't neighbours may be made in either order
//!   (`specs/Moves.antt`).
//! - *vector over the strands*: members of the ring at paths, zero elsewhere, as starts, states and operators give
//!   (`specs/Moves.antt`).
//! - *cancellation*: a braid and its inverse at one gap change nothing (`specs/Moves.antt`).
//! - *Yang-Baxter*: three braids of one sign at neighbouring gaps may begin at either of both (`specs/Moves.antt`).
//! - *by place*: a path, the strands and a vector as functions of the place, as `tree_laws` has them; a vector on lists is
//!   one by place where both agree at each path (`proofs/ActLemmas.antt`).
#![tactic(auto)]

pub mod laws;
