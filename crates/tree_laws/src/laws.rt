//! What the equations of a category say of states on trees.

ghost use Rattle.symbol_table.specs.Category.{symbols};
ghost use Rattle.tree_laws.specs.Laws.{ExchangesAtPair, RaisingLeftKeeps, RaisingRightKeeps, SplitsAtPair, WeighsAsComb};

use ring_laws::StarRing;
use symbol_table::Category;
use symbol_table::laws::all_labels;

/// What a state stands for is the same after any node was raised over its parent, at any depth of its tree.
///
/// It rests on the pentagon and on H being the inverse of F on both sides.
pub fn recoupling<R: StarRing>(category: &Category<R>)
    ensures left { RaisingLeftKeeps (symbols R.StarRing category.now) }
    ensures right { RaisingRightKeeps (symbols R.StarRing category.now) }
{
    // What the symbols obey at all labels.
    all_labels(category);
}

/// At a pair, at any depth of a tree, an exchange is the comb braid of its sign, and the amplitudes with one label are
/// the comb projection on it.
///
/// It rests on H being the inverse of F.
pub fn pairs<R: StarRing>(category: &Category<R>)
    ensures positive { ExchangesAtPair (symbols R.StarRing category.now) (symbols R.StarRing category.now).r }
    ensures negative { ExchangesAtPair (symbols R.StarRing category.now) (symbols R.StarRing category.now).s }
    ensures split { SplitsAtPair (symbols R.StarRing category.now) }
{
    // What the symbols obey at all labels.
    all_labels(category);
}

/// The weight of a state on any tree is that of the comb vector that it stands for.
///
/// It rests on H being the inverse of F and, in the inner products that the weights give, its adjoint.
pub fn weights<R: StarRing>(category: &Category<R>)
    ensures { WeighsAsComb (symbols R.StarRing category.now) }
{
    // What the symbols obey at all labels.
    all_labels(category);
}
