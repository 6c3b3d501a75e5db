//! What the laws of a category say of lists of letters that moves link.

ghost use Rattle.symbol_table.specs.Category.{symbols};
ghost use Rattle.move_laws.specs.Linked.{LinkedHaveEqualRows, LinkedKeepWords, MovesKeepGaps, StepKeepsWords};

use path_laws::laws::{cancellation, far_commutation, yang_baxter};
use ring_laws::StarRing;
use run_laws::laws::comb_vectors;
use symbol_table::Category;

/// A move leaves each letter at a gap between two strands.
pub fn moves()
    ensures { MovesKeepGaps }
{}

/// A move leaves the state of every word as it is, from every vector over the strands; so do moves one after another. Two
/// programs from one start whose letters are linked have the same total and the same rows.
///
/// It rests on cancellation, on far commutation and on Yang-Baxter.
pub fn linked<R: StarRing>(category: &Category<R>)
    ensures step { StepKeepsWords (symbols R.StarRing category.now) }
    ensures words { LinkedKeepWords (symbols R.StarRing category.now) }
    ensures rows { LinkedHaveEqualRows (symbols R.StarRing category.now) }
{
    // What braids do to comb vectors.
    comb_vectors(category);
    cancellation(category);
    far_commutation(category);
    yang_baxter(category);
}
