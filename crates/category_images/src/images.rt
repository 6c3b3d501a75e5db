ghost use Rattle.category_images.specs.Answers.{AnswersImage, AnswersMirror};

use crate::fault::ImageFault;
use crate::image::Image;
use crate::make::make;
use crate::mirrored::Mirrored;
use cyclo_core::Cyclo;
use std::alloc::Global;
use symbol_table::Category;

/// The Galois image of a category: the same rules, version and root, and z^k put for z in every symbol.
///
/// `Exponent` comes exactly where k isn't from 1 to the root or has a divisor in common with it. `Overflow` comes
/// exactly at the first symbol whose image doesn't fit, over F, R, w, v, H, S and in version 2 the twists and the loop
/// values, each in the order of its labels. `Memory` is free.
pub fn galois(alloc: Global, from: &Category<Cyclo>, k: u8) -> Result<Category<Cyclo>, ImageFault>
    ensures { AnswersImage from.now k result }
{
    if !from.ring().is_exponent(k) {
        return Err(ImageFault::Exponent);
    }
    Ok(make(alloc, &Image { from, k })?)
}

/// The mirror of a category: S for R and R for S; F, w, v, H and the loop values stay; in version 2 the twist of a is
/// R(a,a*,1) R(a*,a,1) theta_(a*), with a* the dual of a, multiplied from the left.
///
/// `Overflow` comes exactly at the first twist with a product that doesn't fit, and never in version 1. `Exponent`
/// never comes. `Memory` is free.
pub fn mirror(alloc: Global, from: &Category<Cyclo>) -> Result<Category<Cyclo>, ImageFault>
    ensures { AnswersMirror from.now result }
{
    Ok(make(alloc, &Mirrored { from })?)
}
