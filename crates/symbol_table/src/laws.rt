//! What the symbols of a category obey at all labels, and that the list of laws has them all, for the proofs of the
//! crates above.

ghost use Rattle.symbol_table.specs.AllLabels.{HasEquations, HasUnit, IsProper, IsWeighted};
ghost use Rattle.symbol_table.specs.Category.{symbols};
ghost use Rattle.std.specs.Prelude.{◌≡◌, ◌++◌};
ghost use Rattle.symbol_table.specs.Laws.{HasEveryLaw, laws_of, mark_laws};

use crate::category::Category;
use ring_laws::StarRing;

/// At all labels, with 0 where a symbol isn't admissible: the symbols are of the ring, the unit is one, the weights
/// give the inner products in which H is the adjoint of F and S that of R, and the equations of the laws are true.
pub fn all_labels<R: StarRing>(category: &Category<R>)
    ensures proper { IsProper (symbols R.StarRing category.now) }
    ensures unit { HasUnit (symbols R.StarRing category.now) }
    ensures weighted { IsWeighted (symbols R.StarRing category.now) }
    ensures equations { HasEquations (symbols R.StarRing category.now) }
{
    // These calls tell the proof what a category, its draft and its rules keep.
    let draft = category.draft();
    let _members = draft.version();
    let _rules = draft.rules().count();
}

/// The list of the second version has every law: behind those of the first one those of twists and loop values.
pub fn every_law()
    ensures all { HasEveryLaw (laws_of 2) }
    ensures behind { laws_of 2 ≡ laws_of 1 ++ mark_laws }
{}
