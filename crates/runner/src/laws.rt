//! What the rows and the live words of a run mean.

ghost use Rattle.symbol_table.specs.Category.{symbols};
ghost use Rattle.runner.specs.Outcomes.{SchedulesEndInOrder, SchedulesEndInOutcomes, SchedulesLeaveSome, SchedulesMeanWords};

use ring_laws::StarRing;
use symbol_table::Category;
use symbol_table::laws::all_labels;

/// Where the run of a well formed program under a legal schedule ends, its total and its rows are those of the plan by the comb
/// operators in the order of the text: on trees of any shape, whatever raises the run makes; and its live words, sorted, are
/// those in the order of lists of labels, of which there is at least one; the state of each stands for the vector of its word
/// under the comb operators in the order of the text, and every word whose vector isn't zero is among them.
///
/// It rests on the pentagon, on H being the inverse of F and its adjoint, on R and S being inverse, on weights having inverses,
/// and on far commutation.
pub fn rows<R: StarRing>(category: &Category<R>)
    ensures outcomes { SchedulesEndInOutcomes (symbols R.StarRing category.now) }
    ensures order { SchedulesEndInOrder (symbols R.StarRing category.now) }
    ensures words { SchedulesMeanWords (symbols R.StarRing category.now) }
    ensures some { SchedulesLeaveSome (symbols R.StarRing category.now) }
{
    // What the symbols obey at all labels.
    all_labels(category);
}
