//! The state of a word, and what an exchange makes of it.

ghost use Rattle.std.specs.Prelude.{◌≡◌, ◌<◌, ◌-◌, List, All, length, slice_set, IfOk, OnOk, IsErrOf, Some, None, true, false};
ghost use Rattle.symbol_table.specs.Category.{symbols};
ghost use Rattle.comb_laws.specs.Operators.{swapped};
ghost use Rattle.comb_run.specs.Entries.{vector_of, AreEntries};
ghost use Rattle.comb_run.specs.Evaluated.{stepped_at};
ghost use Rattle.comb_run.specs.States.{state_of, IsState};
ghost use Rattle.word_runs.specs.declared.engine.Step.TheVariants.{Exchange};

use crate::act::{Action, act};
use crate::key::{Strands, copied};
use crate::vector::CombVector;
use comb_laws::Operator;
use program_text::Sign;
use ring_laws::{Overflow, StarRing};
use std::alloc::Global;
use symbol_table::Category;
use word_runs::StepFault;

/// The state of a word: the labels of the strands, and a comb vector over them.
#[derive(Drop)]
pub(crate) struct CombState<R: StarRing> {
    pub(crate) strands: Strands,
    pub(crate) vector: CombVector<R>,
}

impl<R: StarRing> CombState<R> {
    ghost use Rattle.std.specs.Prelude.{IfOk};
    ghost use Rattle.ring_laws.specs.Stated.{Gives};
    ghost use Rattle.symbol_table.specs.Category.{symbols};
    ghost use Rattle.symbol_table.specs.Draft.{IsMember};
    ghost use Rattle.comb_run.specs.Entries.{AreEntries};
    ghost use Rattle.comb_run.specs.Evaluated.{state_weight_at};
    ghost use Rattle.comb_run.specs.States.{state_of};

    /// The weight of the vector over the strands.
    pub(crate) fn weight(&self, category: &Category<R>) -> Result<R::Elem, Overflow>
        requires { AreEntries (symbols R.StarRing category.now) self.now.strands.items self.now.vector }
        ensures value { let c = symbols R.StarRing category.now in
            Gives result (state_weight_at c (state_of c.ring self.now)) }
        ensures member { IfOk result (λ z. IsMember R.StarRing category.now z) }
    {
        self.vector.weight(category, self.strands.as_slice())
    }
}

/// The strands with those at gap k swapped.
fn swapped(strands: &Strands, k: usize) -> Strands
    requires low { 0 < k }
    requires high { k < length strands.now.items }
    ensures { result.items ≡ swapped strands.now.items k }
{
    let mut after = copied(strands);
    let labels = after.as_mut_slice();
    let left = labels[k - 1];
    labels[k - 1] = labels[k];
    labels[k] = left;
    after
}

/// An exchange at gap k.
pub(crate) fn exchange<R: StarRing>(
    alloc: Global,
    category: &Category<R>,
    state: &mut CombState<R>,
    k: u8,
    sign: Sign,
) -> Result<(), StepFault>
    requires low { 0 < k }
    requires high { k < length state.old.strands.items }
    requires state { IsState (symbols R.StarRing category.now) (length state.old.strands.items) state.old }
    ensures state { IsState (symbols R.StarRing category.now) (length state.old.strands.items) state.new }
    ensures value { let c = symbols R.StarRing category.now in
        OnOk result (stepped_at c (Exchange k sign) (state_of c.ring state.old) ≡ Some (state_of c.ring state.new)) }
    ensures too_large { let c = symbols R.StarRing category.now in
        IsErrOf result StepFault.TooLarge → stepped_at c (Exchange k sign) (state_of c.ring state.old) ≡ None }
{
    let gap = usize::from(k);
    let after = swapped(&state.strands, gap);
    let action = Action {
        strands: state.strands.as_slice(),
        after: after.as_slice(),
        gap,
        operator: Operator::Exchange(sign),
    };
    let vector = act(alloc, category, &action, &state.vector)?;
    *state = CombState {
        strands: after,
        vector,
    };
    Ok(())
}
