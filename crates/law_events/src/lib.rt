//! The laws of a category checked index by index: the first event, and what it says.
//!
//! Glossary:
//! - *verdict*: what is wrong with a law at an admissible index: an item of its stated evaluation doesn't fit,
//!   or its equation is false (`specs/Sides.antt`).
//! - *first event*: the first index, in the order of the labels, whose verdict isn't that all is well
//!   (`specs/First.antt`); of several laws, that of the first law that has one (`specs/Sides.antt`).
//! - *judges*: what is asked of a function that tells the verdict of a law at an index (`specs/Judge.antt`).
//! - *holds, fits*: some laws hold at all their indices, and all their items fit (`specs/Verdicts.antt`).
//!
//! Source of the laws: Kitaev 2006, Appendix E. Their order and their stated evaluation: `docs/FORMATS.md`.
#![tactic(auto)]

mod items;
mod judge;
pub mod laws;

pub use items::compare;
pub use judge::check;

#[cfg(test)]
mod tests;
