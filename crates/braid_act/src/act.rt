//! A state after an exchange at a pair.

ghost use Rattle.std.specs.Prelude.{◌≡◌, ◌≢◌, ◌<◌, [], true, false, length, IfOk, OnOk, OnErr, IsErrOf};
ghost use Rattle.std.specs.BTreeMap.{insert_entry};
ghost use Rattle.fusion_rules.specs.Fusion.{fuses};
ghost use Rattle.ring_laws.specs.Stated.{Gives, product_at};
ghost use Rattle.symbol_table.specs.Category.{symbols};
ghost use Rattle.symbol_table.specs.Draft.{IsMember};
ghost use Rattle.tree_shapes.specs.Outlines.{size};
ghost use Rattle.tree_shapes.specs.Settling.{is_pair_at};
ghost use Rattle.amp_store.specs.Amplitudes.{AreAmplitudes, key_cmp};
ghost use Rattle.comb_laws.specs.Operators.{braided, exchange_by, swapped};
ghost use Rattle.recouple.specs.States.{IsStateOf, State, comb};
ghost use Rattle.braid_act.specs.Exchanges.{HasEntry, exchange_at, exchange_fits, exchanged};

use amp_store::{Amps, Key};
use arrayvec::ArrayVec;
use program_text::Sign;
use recouple::TreeState;
use ring_laws::{Overflow, StarRing};
use std::alloc::AllocError;
use symbol_table::laws::all_labels;
use symbol_table::{Category, VIndex};
use tree_shapes::STRAND_LIMIT;
use word_runs::StepFault;

/// R at a vertex for a positive exchange, S for a negative one.
fn symbol_at<R: StarRing>(category: &Category<R>, sign: Sign, at: &VIndex) -> R::Elem
    requires { fuses category.now.rules at.now.a at.now.b at.now.c ≡ true }
    ensures value { result ≡ exchange_by (symbols R.StarRing category.now) sign at.now.a at.now.b at.now.c }
    ensures member { IsMember R.StarRing category.now result }
{
    match sign {
        Sign::Plus => category.r(at),
        Sign::Minus => category.s(at),
    }
}

/// An amplitude times R at a vertex, or S where the exchange is negative. It isn't zero, as R and S have inverses.
fn exchanged_at<R: StarRing>(
    category: &Category<R>,
    sign: Sign,
    at: &VIndex,
    amplitude: &R::Elem,
) -> Result<R::Elem, Overflow>
    requires fuses { fuses category.now.rules at.now.a at.now.b at.now.c ≡ true }
    requires member { IsMember R.StarRing category.now amplitude.now }
    requires some { R.held.is_zero amplitude.now ≡ false }
    ensures value { let c = symbols R.StarRing category.now in
        Gives result (product_at c.ring (exchange_by c sign at.now.a at.now.b at.now.c) amplitude.now) }
    ensures some { IfOk result (λ z. R.held.is_zero z ≡ false) }
{
    // What the symbols obey at all labels.
    all_labels(category);
    let symbol = symbol_at(category, sign, at);
    category.ring().mul(&symbol, amplitude)
}

/// Gives a key its amplitude after an exchange.
fn exchange_entry<R: StarRing>(
    category: &Category<R>,
    state: &TreeState<R>,
    k: u8,
    sign: Sign,
    key: &Key,
    amplitude: &R::Elem,
    new: &mut Amps<R>,
) -> Result<(), StepFault>
    requires low { 0 < k }
    requires gap { k < length state.now.strands }
    requires entry { HasEntry (symbols R.StarRing category.now) state.now k (key.now.items, amplitude.now) }
    ensures entry { let c = symbols R.StarRing category.now in
        OnOk result (new.new ≡ insert_entry key_cmp new.old key.now.items (c.ring.product (exchange_at c sign state.now.strands k key.now.items) amplitude.now)) }
    ensures fits { let c = symbols R.StarRing category.now in
        OnOk result (c.ring.product_fits (exchange_at c sign state.now.strands k key.now.items) amplitude.now ≡ true) }
    ensures too_large { let c = symbols R.StarRing category.now in
        IsErrOf result StepFault.TooLarge → c.ring.product_fits (exchange_at c sign state.now.strands k key.now.items) amplitude.now ≡ false }
{
    let strands = state.strands().as_slice();
    let at = VIndex {
        a: strands[k as usize - 1],
        b: strands[k as usize],
        c: key.as_slice()[k as usize - 1],
    };
    let value = exchanged_at(category, sign, &at, amplitude)?;
    new.put(key.clone()?, value)?;
    Ok(())
}

/// The amplitudes after an exchange.
fn exchange_amps<R: StarRing>(
    category: &Category<R>,
    state: &TreeState<R>,
    k: u8,
    sign: Sign,
) -> Result<Amps<R>, StepFault>
    requires low { 0 < k }
    requires gap { k < size state.now.shape }
    requires pair { is_pair_at state.now.shape k ≡ true }
    requires of { IsStateOf (symbols R.StarRing category.now) state.now }
    ensures amps { IfOk result (λ new. new ≡ State.amps (exchanged (symbols R.StarRing category.now) sign k state.now)) }
    ensures ordered { AreAmplitudes R.held state.now.amps }
    ensures ordered_new { IfOk result (λ new. AreAmplitudes R.held new) }
    ensures fits { IfOk result (λ _. exchange_fits (symbols R.StarRing category.now) sign k state.now ≡ true) }
    ensures too_large { IsErrOf result StepFault.TooLarge → exchange_fits (symbols R.StarRing category.now) sign k state.now ≡ false }
{
    let amps = state.amps();
    let mut new = amps.empty();
    for place in 0..amps.len() {
        let (key, amplitude) = amps.entry(place);
        exchange_entry(category, state, k, sign, key, amplitude, &mut new)?;
    }
    new.in_order();
    Ok(new)
}

/// The strands with k and k + 1 swapped.
fn swapped_strands(
    strands: &ArrayVec<u8, STRAND_LIMIT>,
    k: u8,
) -> Result<ArrayVec<u8, STRAND_LIMIT>, AllocError>
    requires low { 0 < k }
    requires gap { k < length strands.now.items }
    ensures { IfOk result (λ turned. turned.items ≡ swapped strands.now.items k) }
{
    let mut turned = strands.clone()?;
    turned.as_mut_slice().swap(k as usize - 1, k as usize);
    Ok(turned)
}

/// Exchanges the two strands of a pair: each amplitude is multiplied by R at their labels and the label of the node, or
/// by S where the exchange is negative, and the strands are swapped. What the state stands for is then the comb braid of
/// what it stood for, and where the state had an amplitude it has one.
///
/// Stops with [`StepFault::TooLarge`] exactly where one of these products doesn't fit. Refused, the state is unchanged.
/// The gap is one of the shape's, and the state is one of the category.
pub fn exchange<R: StarRing>(
    category: &Category<R>,
    state: &mut TreeState<R>,
    k: u8,
    sign: Sign,
) -> Result<(), StepFault>
    requires low { 0 < k }
    requires gap { k < size state.old.shape }
    requires pair { is_pair_at state.old.shape k ≡ true }
    requires of { IsStateOf (symbols R.StarRing category.now) state.old }
    ensures state { OnOk result (state.new ≡ exchanged (symbols R.StarRing category.now) sign k state.old) }
    ensures fits { OnOk result (exchange_fits (symbols R.StarRing category.now) sign k state.old ≡ true) }
    ensures too_large { IsErrOf result StepFault.TooLarge → exchange_fits (symbols R.StarRing category.now) sign k state.old ≡ false }
    ensures err { OnErr result (state.new ≡ state.old) }
    ensures of { OnOk result (IsStateOf (symbols R.StarRing category.now) state.new) }
    ensures stands { let c = symbols R.StarRing category.now in
        OnOk result (comb c state.new ≡ braided c state.old.strands sign k (comb c state.old)) }
    ensures some { OnOk result (state.old.amps ≢ [] → state.new.amps ≢ []) }
{
    // What the symbols obey at all labels.
    all_labels(category);
    let amps = exchange_amps(category, state, k, sign)?;
    let strands = swapped_strands(state.strands(), k)?;
    *state = TreeState::with_parts(strands, state.shape().copy(), amps);
    Ok(())
}
