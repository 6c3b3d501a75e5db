//! Cyclotomic numbers: sums of powers of a root of unity with whole coefficients over a denominator, each
//! answer exact or refused as too large.
//!
//! Glossary:
//! - *number*: sixteen numerators over a denominator, seen without bound (`specs/Ratio.antt`).
//! - *reduced form*: numerators and denominator without a common divisor (`specs/Ratio.antt`).
//! - *ring of a root*: sum, product, negative and conjugate of numbers, and which of them fit
//!   (`specs/Ratio.antt`; Washington, Introduction to Cyclotomic Fields, chapter 2).
//! - *content*: the greatest common divisor of some numbers (`specs/Content.antt`).
//! - *convolution*: the product of two polynomials before reduction, weighed by any powers
//!   (`specs/Convolution.antt`).
//! - *given number*: the number of any numerators over any denominator, or why there is none
//!   (`specs/Given.antt`).
//! - *exponent*: a number k from 1 to N without a divisor in common with N (`specs/Image.antt`).
//! - *image*: what putting z^k for z makes of a number, for an exponent k: the Galois action
//!   (`specs/Image.antt`), and its laws (`specs/ImageLaws.antt`).
//! - *layers*: the same ring as fractions of combinations of powers, where its laws are proved
//!   (`specs/Layers.antt`, `specs/CycloLaws.antt`, `specs/RingAt.antt`).
#![tactic(auto)]

mod cancel;
mod fault;
mod image;
pub mod laws;
mod number;
mod small;
mod sums;
mod tally;

pub use fault::NumberFault;
pub use number::{Cyclo, Number};

#[cfg(test)]
mod tests;
