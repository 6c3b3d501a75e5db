//! What exchanges of both signs are to one another.

ghost use Rattle.symbol_table.specs.Category.{symbols};
ghost use Rattle.braid_act.specs.Exchanges.{ExchangesBack};

use ring_laws::StarRing;
use symbol_table::Category;
use symbol_table::laws::all_labels;

/// An exchange and then the one of the other sign at the same pair leave a state as it was.
///
/// It rests on R keeping the weights, and on S being its adjoint in the inner products that they give.
pub fn exchanges_back<R: StarRing>(category: &Category<R>)
    ensures { ExchangesBack (symbols R.StarRing category.now) }
{
    // What the symbols obey at all labels.
    all_labels(category);
}
