//! The weight of a state.

ghost use Rattle.std.specs.Prelude.{◌≡◌, ◌<◌, ◌+◌, ◌-◌, ℕ, Some, true, length, slice_index, IsTrue, IfOk};
ghost use Rattle.ring_laws.specs.Stated.{Gives, product_at};
ghost use Rattle.symbol_table.specs.Category.{symbols};
ghost use Rattle.symbol_table.specs.Draft.{IsMember};
ghost use Rattle.tree_shapes.specs.Labelled.{is_admissible};
ghost use Rattle.tree_shapes.specs.Outlines.{left_gap, right_gap, size, with_labels};
ghost use Rattle.comb_laws.specs.Operators.{weight};
ghost use Rattle.amp_store.specs.Amplitudes.{amplitude_at};
ghost use Rattle.recouple.specs.Rotations.{IsKey, IsPlace};
ghost use Rattle.recouple.specs.States.{IsStateOf, comb};
ghost use Rattle.charge_project.specs.Weights.{child_label as spec_child_label, key_weight as spec_key_weight, node_weight, stated_weight, term_added, weight_step};

use amp_store::Key;
use recouple::TreeState;
use ring_laws::{Overflow, StarRing};
use symbol_table::laws::all_labels;
use symbol_table::{Category, VIndex};
use tree_shapes::Shape;

/// The label at the top of a child of a node: that of the child's gap, or where the child is a strand that strand's.
fn child_label(strands: &[u8], key: &[u8], child: Option<u8>, strand: u8) -> u8
    requires strand { strand < length strands.now }
    requires gap { (g : ℕ) → child ≡ Some g → IsPlace (length key.now) g }
    ensures { result ≡ spec_child_label strands.now key.now strand child }
{
    match child {
        None => strands[strand as usize],
        Some(gap) => key[gap as usize - 1],
    }
}

/// The labels at a node: those of its left and of its right child, and its own.
fn vertex_at(strands: &[u8], shape: &Shape, key: &[u8], k: u8) -> VIndex
    requires low { 0 < k }
    requires gap { k < size shape.now }
    requires leaves { size shape.now ≡ length strands.now }
    requires long { length strands.now ≡ length key.now + 1 }
    ensures left { result.a ≡ spec_child_label strands.now key.now (k - 1) (left_gap shape.now k) }
    ensures right { result.b ≡ spec_child_label strands.now key.now k (right_gap shape.now k) }
    ensures own { result.c ≡ slice_index key.now (k - 1) }
{
    VIndex {
        a: child_label(strands, key, shape.left(k), k - 1),
        b: child_label(strands, key, shape.right(k), k),
        c: key[k as usize - 1],
    }
}

/// A product times the weight w of the node at a gap.
fn times_node<R: StarRing>(
    category: &Category<R>,
    state: &TreeState<R>,
    key: &[u8],
    k: u8,
    weights: &R::Elem,
) -> Result<R::Elem, Overflow>
    requires low { 0 < k }
    requires gap { k < size state.now.shape }
    requires of { IsStateOf (symbols R.StarRing category.now) state.now }
    requires key { IsKey category.now.rules.count (length state.now.strands) key.now }
    requires admissible { is_admissible (symbols R.StarRing category.now).fuse (with_labels state.now.shape state.now.strands key.now) ≡ true }
    requires weights { IsMember R.StarRing category.now weights.now }
    ensures value { let c = symbols R.StarRing category.now in Gives result (product_at c.ring weights.now (node_weight c state.now key.now k)) }
    ensures member { IfOk result (λ z. IsMember R.StarRing category.now z) }
{
    let at = vertex_at(state.strands().as_slice(), state.shape(), key, k);
    category.ring().mul(weights, &category.w(&at))
}

/// The product of the weights of a key's nodes, by gap.
#[tactic(auto, using(ring_laws::proofs::StatedLemmas::steps_one, ring_laws::proofs::StatedLemmas::steps_none))]
fn key_weight<R: StarRing>(
    category: &Category<R>,
    state: &TreeState<R>,
    key: &[u8],
) -> Result<R::Elem, Overflow>
    requires of { IsStateOf (symbols R.StarRing category.now) state.now }
    requires key { IsKey category.now.rules.count (length state.now.strands) key.now }
    requires admissible { is_admissible (symbols R.StarRing category.now).fuse (with_labels state.now.shape state.now.strands key.now) ≡ true }
    ensures value { Gives result (spec_key_weight (symbols R.StarRing category.now) state.now key.now) }
    ensures member { IfOk result (λ z. IsMember R.StarRing category.now z) }
{
    let mut weights = category.ring().one();
    for k in 1..state.shape().leaves() {
        weights = times_node(category, state, key, k, &weights)?;
    }
    Ok(weights)
}

/// A sum with one term more: the product of the weights times the amplitude and its conjugate.
fn add_term<R: StarRing>(
    ring: &R,
    weights: &R::Elem,
    amplitude: &R::Elem,
    sum: &R::Elem,
) -> Result<R::Elem, Overflow>
    requires weights { IsTrue ((R.ring ring.now).member weights.now) }
    requires amplitude { IsTrue ((R.ring ring.now).member amplitude.now) }
    requires sum { IsTrue ((R.ring ring.now).member sum.now) }
    ensures value { Gives result (term_added (R.ring ring.now) weights.now amplitude.now sum.now) }
    ensures member { IfOk result (λ z. IsTrue ((R.ring ring.now).member z)) }
{
    let turned = ring.conj(amplitude)?;
    let square = ring.mul(amplitude, &turned)?;
    let term = ring.mul(weights, &square)?;
    ring.add(sum, &term)
}

/// A sum with the term of one key of the state more.
fn add_key<R: StarRing>(
    category: &Category<R>,
    state: &TreeState<R>,
    key: &Key,
    amplitude: &R::Elem,
    sum: &R::Elem,
) -> Result<R::Elem, Overflow>
    requires of { IsStateOf (symbols R.StarRing category.now) state.now }
    requires entry { amplitude_at state.now.amps key.now.items ≡ Some amplitude.now }
    requires sum { IsMember R.StarRing category.now sum.now }
    ensures value { Gives result (weight_step (symbols R.StarRing category.now) state.now (key.now.items, amplitude.now) sum.now) }
    ensures member { IfOk result (λ z. IsMember R.StarRing category.now z) }
{
    let weights = key_weight(category, state, key.as_slice())?;
    add_term(category.ring(), &weights, amplitude, sum)
}

/// The weight of a state: the sum over its keys of the product of the weights w of the key's nodes times the amplitude
/// and its conjugate. It is the weight of the comb vector that the state stands for, a number of the category's ring.
///
/// It is evaluated over the keys in their order, the nodes of a key by gap, and begun at zero. Answers [`Overflow`]
/// exactly where a product, conjugate or sum of that doesn't fit. Takes no memory.
pub fn weight<R: StarRing>(
    category: &Category<R>,
    state: &TreeState<R>,
) -> Result<R::Elem, Overflow>
    requires of { IsStateOf (symbols R.StarRing category.now) state.now }
    ensures value { Gives result (stated_weight (symbols R.StarRing category.now) state.now) }
    ensures member { IfOk result (λ z. IsMember R.StarRing category.now z) }
    ensures weighs { let c = symbols R.StarRing category.now in IfOk result (λ z. z ≡ weight c state.now.strands (comb c state.now)) }
{
    // What the symbols obey at all labels, and that keys are in order.
    all_labels(category);
    state.amps().in_order();
    let mut sum = category.ring().zero();
    for place in 0..state.amps().len() {
        let (key, amplitude) = state.amps().entry(place);
        sum = add_key(category, state, key, amplitude, &sum)?;
    }
    Ok(sum)
}
