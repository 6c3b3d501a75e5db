//! What the laws of a category say of the weights of the rows of a program.

ghost use Rattle.symbol_table.specs.Category.{symbols};
ghost use Rattle.sum_laws.specs.RowSums.{ProgramsSumToTotal, RowsShareWeight, WordsShareWeight};

use path_laws::laws::weights;
use ring_laws::StarRing;
use run_laws::laws::programs;
use symbol_table::Category;

/// The words of outcomes of commands share the weight of every vector over any number of strands; so do the rows, which leave
/// out words of weight zero alone. So the weights of the rows of a well formed program sum to its total, as ring values.
///
/// It rests on braids keeping the weight, and on the charges at a gap sharing it.
pub fn sums<R: StarRing>(category: &Category<R>)
    ensures words { WordsShareWeight (symbols R.StarRing category.now) }
    ensures rows { RowsShareWeight (symbols R.StarRing category.now) }
    ensures programs { ProgramsSumToTotal (symbols R.StarRing category.now) }
{
    // What braids and measurements make of weights, and that a well formed program tests no outcome too early.
    weights(category);
    programs();
}
