ghost use Rattle.category_images.specs.Answers.{AnswersProduct};

use crate::fault::ProductFault;
use crate::make::make;
use crate::pairs::Pairs;
use cyclo_core::Cyclo;
use fusion_rules::LABEL_LIMIT;
use std::alloc::Global;
use symbol_table::Category;

/// The product of two categories: the pair (i, j) of their labels has the number i K + j, with K the second's number of
/// labels; pairs fuse where both their labels do, and every symbol is the product of the two.
///
/// `Version` comes exactly where one of them has version 1, then `Roots` exactly where the roots differ, then `Labels`
/// exactly where there are more than twelve pairs, then `Overflow` exactly at the first symbol whose product doesn't
/// fit, over F, R, w, v, H, S, the twists and the loop values, each in the order of its labels. `Memory` is free.
pub fn product(
    alloc: Global,
    one: &Category<Cyclo>,
    two: &Category<Cyclo>,
) -> Result<Category<Cyclo>, ProductFault>
    ensures { AnswersProduct one.now two.now result }
{
    if one.draft().version() == 1 || two.draft().version() == 1 {
        return Err(ProductFault::Version);
    }
    if one.ring().root() != two.ring().root() {
        return Err(ProductFault::Roots);
    }
    let count = u32::from(one.rules().count()) * u32::from(two.rules().count());
    if count > LABEL_LIMIT as u32 {
        return Err(ProductFault::Labels { count });
    }
    Ok(make(alloc, &Pairs { one, two })?)
}
