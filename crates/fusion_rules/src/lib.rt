//! The labels of a fusion category, and which of them fuse.
//!
//! Glossary:
//! - *label*: the number of a simple object, below 12; label 0 is the unit (`LABEL_LIMIT`, `UNIT`).
//! - *names*: the names of the labels, in the order of their numbers (`specs/Names.antt`).
//! - *triple*: labels a, b, c such that c occurs in a times b, written N(a,b,c) (`specs/Fusion.antt`).
//! - *fusion*: the count of labels and the triples, as contracts see a `Rules` (`specs/Fusion.antt`).
//! - *first fault*: the first index, in label order, at which a condition on the triples fails
//!   (`specs/First.antt`, `specs/Check.antt`).
//! - *rules pass*: the three conditions as facts, with no order (`specs/Check.antt`).
//! - *dual*: of a label a, the one label b with N(a,b,1) (`specs/Check.antt`).
//!
//! Every multiplicity is 0 or 1. Source: Kitaev 2006, Appendix E.1; Wang, CBMS 112, chapter 4.
#![tactic(auto)]

mod check;
mod label;
mod name;
mod names;
mod rules;

pub use label::{LABEL_LIMIT, UNIT};
pub use names::{NameFault, Names};
pub use rules::{RuleRefused, Rules, RulesFault};
