//! The parts of a state by the charge at a gap.

ghost use Rattle.std.specs.Prelude.{◌≡◌, ◌<◌, ◌++◌, [], ◌∷◌, List, All, length, IfOk, OnOk, IsErrOf, true, false, not, Some, None, if◌then◌else◌};
ghost use Rattle.symbol_table.specs.Category.{symbols};
ghost use Rattle.comb_run.specs.Entries.{vector_of, AreEntries};
ghost use Rattle.comb_run.specs.Evaluated.{projected_fits, is_part, part_of, parts_at};
ghost use Rattle.comb_run.specs.States.{state_of, IsState};
ghost use Rattle.word_runs.specs.Parts.{parts_of};

use crate::act::{Action, act};
use crate::key::copied;
use crate::state::CombState;
use comb_laws::Operator;
use ring_laws::StarRing;
use std::alloc::{AllocError, Global};
use symbol_table::Category;
use word_runs::{Part, StepFault};

/// The projection of a state at gap k on a charge.
fn project<R: StarRing>(
    alloc: Global,
    category: &Category<R>,
    state: &CombState<R>,
    k: u8,
    q: u8,
) -> Result<CombState<R>, StepFault>
    requires low { 0 < k }
    requires high { k < length state.now.strands.items }
    requires charge { q < category.now.rules.count }
    requires state { IsState (symbols R.StarRing category.now) (length state.now.strands.items) state.now }
    ensures state { IfOk result (λ part. IsState (symbols R.StarRing category.now) (length state.now.strands.items) part) }
    ensures value { let c = symbols R.StarRing category.now in
        IfOk result (λ part. (q, state_of c.ring part) ≡ part_of c k (state_of c.ring state.now) q) }
    ensures fits { let c = symbols R.StarRing category.now in
        IfOk result (λ _. projected_fits c state.now.strands.items k q (vector_of c.ring state.now.strands.items state.now.vector) ≡ true) }
    ensures too_large { let c = symbols R.StarRing category.now in
        IsErrOf result StepFault.TooLarge → projected_fits c state.now.strands.items k q (vector_of c.ring state.now.strands.items state.now.vector) ≡ false }
{
    let strands = copied(&state.strands);
    let action = Action {
        strands: state.strands.as_slice(),
        after: strands.as_slice(),
        gap: usize::from(k),
        operator: Operator::Project(q),
    };
    let vector = act(alloc, category, &action, &state.vector)?;
    Ok(CombState { strands, vector })
}

/// Adds a part.
fn push_part<R: StarRing>(
    parts: &mut Vec<Part<CombState<R>>>,
    label: u8,
    state: CombState<R>,
) -> Result<(), AllocError>
    ensures { OnOk result (parts.new.items ≡ parts.old.items ++ record { label = label; state = state } ∷ []) }
{
    parts.push(Part { label, state })?;
    Ok(())
}

/// Adds the projection on the charge q, if it isn't zero.
fn push_projection<R: StarRing>(
    alloc: Global,
    category: &Category<R>,
    state: &CombState<R>,
    k: u8,
    q: u8,
    parts: &mut Vec<Part<CombState<R>>>,
) -> Result<(), StepFault>
    requires low { 0 < k }
    requires high { k < length state.now.strands.items }
    requires charge { q < category.now.rules.count }
    requires state { IsState (symbols R.StarRing category.now) (length state.now.strands.items) state.now }
    requires parts { All (λ part. IsState (symbols R.StarRing category.now) (length state.now.strands.items) part.state) parts.old.items }
    ensures parts { OnOk result (All (λ part. IsState (symbols R.StarRing category.now) (length state.now.strands.items) part.state) parts.new.items) }
    ensures value { let c = symbols R.StarRing category.now in
        let part = part_of c k (state_of c.ring state.now) q in
        OnOk result (parts_of (state_of c.ring) parts.new.items ≡ parts_of (state_of c.ring) parts.old.items ++ (if is_part c part then part ∷ [] else [])) }
    ensures fits { let c = symbols R.StarRing category.now in
        OnOk result (projected_fits c state.now.strands.items k q (vector_of c.ring state.now.strands.items state.now.vector) ≡ true) }
    ensures too_large { let c = symbols R.StarRing category.now in
        IsErrOf result StepFault.TooLarge → projected_fits c state.now.strands.items k q (vector_of c.ring state.now.strands.items state.now.vector) ≡ false }
{
    let part = project(alloc, category, state, k, q)?;
    if part.vector.is_empty() {
        return Ok(());
    }
    push_part(parts, q, part)?;
    Ok(())
}

/// The parts of a state at gap k: in label order, the projections that aren't zero.
pub(crate) fn split<R: StarRing>(
    alloc: Global,
    category: &Category<R>,
    state: &CombState<R>,
    k: u8,
) -> Result<Vec<Part<CombState<R>>>, StepFault>
    requires low { 0 < k }
    requires high { k < length state.now.strands.items }
    requires state { IsState (symbols R.StarRing category.now) (length state.now.strands.items) state.now }
    ensures parts { IfOk result (λ parts. All (λ part. IsState (symbols R.StarRing category.now) (length state.now.strands.items) part.state) parts.items) }
    ensures value { let c = symbols R.StarRing category.now in
        IfOk result (λ parts. parts_at c k (state_of c.ring state.now) ≡ Some (parts_of (state_of c.ring) parts.items)) }
    ensures too_large { let c = symbols R.StarRing category.now in
        IsErrOf result StepFault.TooLarge → parts_at c k (state_of c.ring state.now) ≡ None }
{
    let mut parts = Vec::new(alloc);
    for q in 0..category.rules().count() {
        push_projection(alloc, category, state, k, q, &mut parts)?;
    }
    Ok(parts)
}
