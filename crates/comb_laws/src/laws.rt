//! What the laws of a category say of comb vectors.

ghost use Rattle.symbol_table.specs.Category.{symbols};
ghost use Rattle.comb_laws.specs.Laws.{FirstFactorIsOne, OutcomesAreInner, StartsAtOwnPath};

use ring_laws::StarRing;
use symbol_table::Category;

/// From the unit, a left-combed tree is one at the path of its own labels and zero at every other, and the
/// factor of the first strand in a weight is one. So the engine may start there and leave that factor out.
///
/// It rests on the laws of the unit, on the inverse weights and on the formula of H.
pub fn left_comb_start<R: StarRing>(category: &Category<R>)
    ensures start { StartsAtOwnPath (symbols R.StarRing category.now) }
    ensures weight { FirstFactorIsOne (symbols R.StarRing category.now) }
    ensures outcomes { OutcomesAreInner (symbols R.StarRing category.now) }
{
    // Two calls whose contracts tell that the draft is lawful and that its rules are rules.
    let _lawful = category.draft();
    let _count = category.rules().count();
}
