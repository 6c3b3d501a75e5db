//! Why the categories that are made from others are lawful: images under maps of the ring, the mirror, and products.
//!
//! Glossary:
//! - *are of a category*: symbols at all labels are lawful, 0 where they aren't admissible, and their H and S are the
//!   formulas (`specs/Category.antt`).
//! - *image*: the same rules, and the image of every symbol under a map of the ring (`specs/Images.antt`).
//! - *mirror*: S for R and R for S, with the inverse twists (`specs/Mirrors.antt`).
//! - *product*: a label is a pair of labels, and every symbol is the product of two (`specs/Products.antt`).
#![tactic(auto)]

pub mod laws;
