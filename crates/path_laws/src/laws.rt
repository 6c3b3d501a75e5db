//! What the laws of a category say of braids and measurements on comb vectors.

ghost use Rattle.path_laws.specs.Moves.{BraidsCancel, FarLettersCommute, FarOperatorsCommute, OperatorsStayOver, StartsAreOver, StatesAreOver, YangBaxter};
ghost use Rattle.path_laws.specs.Weights.{BraidsKeepWeight, ChargesShareWeight};
ghost use Rattle.symbol_table.specs.Category.{symbols};

use ring_laws::StarRing;
use symbol_table::Category;
use symbol_table::laws::all_labels;

/// A braid keeps the weight of a vector, and the charges at a gap share it. Both hold of every vector over any number of
/// strands, since a weight and an operator see a vector at paths alone, and there by products.
///
/// It rests on F and H being inverse and adjoint in the inner products that the weights give, and on R keeping them.
pub fn weights<R: StarRing>(category: &Category<R>)
    ensures braids { BraidsKeepWeight (symbols R.StarRing category.now) }
    ensures charges { ChargesShareWeight (symbols R.StarRing category.now) }
{
    // What the symbols obey at all labels.
    all_labels(category);
}

/// Any two operators at gaps with another one between them may be made in either order, on every vector, and leave the
/// same strands. So may two letters of a plan, on every word of outcomes.
///
/// It rests on the symbols being zero where not admissible, and on no equation.
pub fn far_commutation<R: StarRing>(category: &Category<R>)
    ensures operators { FarOperatorsCommute (symbols R.StarRing category.now) }
    ensures letters { FarLettersCommute (symbols R.StarRing category.now) }
{
    // What the symbols obey at all labels.
    all_labels(category);
}

/// A braid and its inverse at one gap, in either order, give back the strands and the vector, where it has members of
/// the ring at paths and zero elsewhere. The vectors of starts, of states, and of operators are such.
///
/// It rests on F and H being inverse, and on R and S being so by the weights.
pub fn cancellation<R: StarRing>(category: &Category<R>)
    ensures cancel { BraidsCancel (symbols R.StarRing category.now) }
    ensures starts { StartsAreOver (symbols R.StarRing category.now) }
    ensures states { StatesAreOver (symbols R.StarRing category.now) }
    ensures operators { OperatorsStayOver (symbols R.StarRing category.now) }
{
    // What the symbols obey at all labels.
    all_labels(category);
}

/// Three braids of one sign at neighbouring gaps may begin at either of both, on every vector, and leave the same strands.
///
/// It rests on the pentagon and on the hexagon of the sign.
pub fn yang_baxter<R: StarRing>(category: &Category<R>)
    ensures { YangBaxter (symbols R.StarRing category.now) }
{
    // What the symbols obey at all labels.
    all_labels(category);
}
