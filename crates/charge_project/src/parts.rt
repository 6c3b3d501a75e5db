//! A state divided by the charge of a pair.

ghost use Rattle.std.specs.Prelude.{◌≡◌, ◌≢◌, ◌<◌, ◌-◌, ◌++◌, ◌∷◌, [], ℕ, true, length, IfOk, OnOk, if◌then◌else◌};
ghost use Rattle.std.specs.List.{AllByRecursion};
ghost use Rattle.symbol_table.specs.Category.{symbols};
ghost use Rattle.tree_shapes.specs.Outlines.{size};
ghost use Rattle.tree_shapes.specs.Settling.{is_pair_at};
ghost use Rattle.word_runs.specs.Parts.{parts_of};
ghost use Rattle.comb_laws.specs.Operators.{projected};
ghost use Rattle.recouple.specs.States.{IsStateOf, comb};
ghost use Rattle.charge_project.specs.Splits.{any_left, part_at, parts_below};

use recouple::TreeState;
use ring_laws::StarRing;
use std::alloc::{AllocError, Global};
use symbol_table::Category;
use symbol_table::laws::all_labels;
use word_runs::Part;

/// Adds the part of a label, if it occurs.
fn push_part<R: StarRing>(
    category: &Category<R>,
    parts: &mut Vec<Part<TreeState<R>>>,
    state: &TreeState<R>,
    k: u8,
    label: u8,
) -> Result<(), AllocError>
    requires low { 0 < k }
    requires gap { k < size state.now.shape }
    requires of { IsStateOf (symbols R.StarRing category.now) state.now }
    ensures { OnOk result (parts_of (λ s. s) parts.new.items ≡ parts_of (λ s. s) parts.old.items
        ++ (if any_left (part_at k state.now label).amps then (label, part_at k state.now label) ∷ [] else [])) }
{
    let amps = state.amps().keep_label(k as usize - 1, label)?;
    if amps.len() > 0 {
        let strands = state.strands().clone()?;
        let part = TreeState::with_parts(strands, state.shape().copy(), amps);
        parts.push(Part { label, state: part })?;
    }
    Ok(())
}

/// The parts of a state by the label of a pair, those that occur, in the order of their labels. Each is the same tree with
/// the amplitudes that have its label there, a state of the category, and stands for the comb projection on the label of
/// what the state stands for; where a label doesn't occur, that is zero.
///
/// An error comes for want of memory alone.
pub fn split<R: StarRing>(
    alloc: Global,
    category: &Category<R>,
    state: &TreeState<R>,
    k: u8,
) -> Result<Vec<Part<TreeState<R>>>, AllocError>
    requires low { 0 < k }
    requires gap { k < size state.now.shape }
    requires pair { is_pair_at state.now.shape k ≡ true }
    requires of { IsStateOf (symbols R.StarRing category.now) state.now }
    ensures parts { IfOk result (λ ps. parts_of (λ s. s) ps.items ≡ parts_below k state.now category.now.rules.count) }
    ensures of { IfOk result (λ _. (q : ℕ) → IsStateOf (symbols R.StarRing category.now) (part_at k state.now q)) }
    ensures stands { let c = symbols R.StarRing category.now in
        IfOk result (λ _. (q : ℕ) → comb c (part_at k state.now q) ≡ projected c state.now.strands k q (comb c state.now)) }
    ensures some { IfOk result (λ ps. state.now.amps ≢ [] → ps.items ≢ []) }
{
    // What the symbols obey at all labels, and that keys are in order.
    all_labels(category);
    state.amps().in_order();
    let mut parts = Vec::new(alloc);
    for label in 0..category.rules().count() {
        push_part(category, &mut parts, state, k, label)?;
    }
    Ok(parts)
}
