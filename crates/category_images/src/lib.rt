//! New categories from old: Galois images, the mirror, and the product of two.
//!
//! Each answers a category, which is lawful by its type: nothing is checked again.
//!
//! Glossary:
//! - *place*: a symbol at an index (`specs/Places.antt`).
//! - *item*: the stated evaluation of a symbol of the new category, which has no value where it doesn't fit
//!   (`specs/Items.antt`).
//! - *first place*: the first item without a value: of F, R, w, v, H, S, twists and loop values in this order, and of
//!   each in the order of its labels (`specs/Places.antt`).
//! - *made*: a category with the wanted symbols (`specs/Answers.antt`). What these are stands in `image_laws`.
//! - *has rules, has marks*: what is known of the wanted symbols before any is made (`specs/Patterns.antt`); a pattern is
//!   what knows them and evaluates each item (`src/pattern.rt`).
//! - *stands, is right*: a value was put, and it is the wanted one (`specs/Making.antt`).
//! - *fills*: what a walk over the indices of one symbol does, or the first place at which it stops
//!   (`specs/Making.antt`).
//!
//! Sources: Wang, CBMS 112, on Galois conjugates and products of unitary modular categories; Kitaev 2006, Appendix E, on
//! mirrors.
#![tactic(auto)]

mod fault;
mod image;
mod images;
mod make;
mod making;
mod mirrored;
mod names;
mod pairs;
mod pattern;
mod place;
mod products;
mod rules;
mod value;
mod walk;

pub use fault::{ImageFault, ProductFault};
pub use images::{galois, mirror};
pub use names::product_names;
pub use place::{Place, Symbol};
pub use products::product;

#[cfg(test)]
mod tests;
