//! The symbols of a braided fusion category.
//!
//! Conventions are those of Kitaev 2006, Appendix E, and Wang, CBMS 112, in the gauge where symbols with
//! a unit are 1: `((a b)_e c)_d = sum over f of F(a,b,c,d;e,f) (a (b c)_f)_d`, and a positive exchange
//! takes `(a b)_c` to `R(a,b,c) (b a)_c`.
//!
//! Glossary:
//! - *given*: which triples fuse, and which values were set (`specs/Symbols.antt`).
//! - *symbols*: F, H, R, S, w and v at all labels: 1 where an admissible index wasn't set, 0 where an index
//!   isn't admissible; the twist and the loop value of each label: 1 where it wasn't set (`specs/Symbols.antt`).
//! - *stated H and S*: their evaluation from the left, which stops where an item doesn't fit
//!   (`specs/Evaluated.antt`).
//! - *draft*: the version, the ring, the rules and the set values, in the order of their indices
//!   (`specs/Draft.antt`).
//! - *mark*: a twist or a loop value, by its label; a draft of version 2 alone has them set (`specs/Draft.antt`).
//! - *derived*: the values of H and S that were put, and whether they are those of a draft
//!   (`specs/Derived.antt`).
//! - *law*: its indices as data, and its equation (`specs/Laws.antt`).
//! - *lawful*: the rules pass and every equation of every law of the version is true (`specs/Laws.antt`).
//! - *proper*, *unit*, *weighted*, *equations*: what the symbols of a category obey at all labels
//!   (`specs/AllLabels.antt`, given by [`laws::all_labels`]).
//! - *category*: a lawful draft with its H and S (`specs/Category.antt`).
//! - *index*: the labels of a symbol, and their order (`specs/Index.antt`).
#![tactic(auto)]

mod category;
mod derived;
mod draft;
mod index;
mod law;
pub mod laws;
mod values;

pub use category::Category;
pub use derived::Derived;
pub use draft::{Draft, MarkFault, SetFault};
pub use index::{FIndex, VIndex};
pub use law::{Event, Kind, Labels, Law, Triple};

#[cfg(test)]
mod tests;
