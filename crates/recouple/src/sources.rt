//! Where the terms of the new amplitudes come from, in the order of the new keys.

ghost use Rattle.std.specs.Prelude.{◌≡◌, ◌<◌, ◌++◌, ◌∷◌, [], ℕ, List, All, IfOk, OnOk, length, if◌then◌else◌};
ghost use Rattle.symbol_table.specs.Category.{symbols};
ghost use Rattle.amp_store.specs.Gathered.{among};
ghost use Rattle.recouple.specs.Rotations.{IsKey, IsPlace, IsRotation, after as spec_after};
ghost use Rattle.recouple.specs.Raises.{AreOver, has_factor as spec_has_factor};
ghost use Rattle.recouple.specs.Targets.{key_at, keys_of, row_of, targets_of};

use crate::factors::has_factor;
use crate::keys::{after, order_of, order_step, set_label};
use crate::rotation::Rotation;
use amp_store::{Amps, Key};
use ring_laws::StarRing;
use std::alloc::AllocError;
use symbol_table::Category;

/// An old amplitude, and the new key to which it adds a term.
///
/// In their order those of one new key stand together, by their old labels at the node.
#[derive(Clone, Copy, Debug, PartialEq, Eq, PartialOrd, Ord)]
pub(crate) struct Source {
    /// Puts the new keys in order.
    pub(crate) order: u128,
    /// The place of the old amplitude.
    pub(crate) place: usize,
    /// The old label at the node.
    pub(crate) from: u8,
    /// The new label at the parent.
    pub(crate) to: u8,
}

/// Adds a source of a new key where its factor is admissible.
fn push_source<R: StarRing>(
    sources: &mut Vec<Source>,
    category: &Category<R>,
    strands: &[u8],
    rotation: &Rotation,
    key: &Key,
    source: Source,
) -> Result<(), AllocError>
    requires rotation { IsRotation (length strands.now) rotation.now }
    requires strands { All (λ s. s < category.now.rules.count) strands.now }
    requires key { IsKey category.now.rules.count (length strands.now) key.now.items }
    requires label { source.from < category.now.rules.count }
    ensures { OnOk result (sources.new.items ≡ sources.old.items
        ++ (if spec_has_factor (symbols R.StarRing category.now) strands.now rotation.now key.now.items source.from then source ∷ [] else [])) }
{
    if has_factor(category, strands, rotation, key, source.from) {
        sources.push(source)?;
    }
    Ok(())
}

/// Adds the old amplitude at a place as a source of each new key to which it adds a term.
fn push_row<R: StarRing>(
    sources: &mut Vec<Source>,
    category: &Category<R>,
    strands: &[u8],
    rotation: &Rotation,
    key: &Key,
    place: usize,
    step: u128,
) -> Result<(), AllocError>
    requires rotation { IsRotation (length strands.now) rotation.now }
    requires strands { All (λ s. s < category.now.rules.count) strands.now }
    requires key { IsKey category.now.rules.count (length strands.now) key.now.items }
    ensures keys { OnOk result ((es : List (List ℕ × R.Elem)) → key_at es place ≡ key.now.items
        → keys_of rotation.now es sources.new.items ≡ keys_of rotation.now es sources.old.items ++ row_of (symbols R.StarRing category.now) strands.now rotation.now key.now.items) }
    ensures places { OnOk result ((n : ℕ) → place < n → All (λ s. s.place < n) sources.old.items → All (λ s. s.place < n) sources.new.items) }
{
    let from = key.as_slice()[rotation.node as usize - 1];
    let mut changed = after(key, rotation, 0);
    let mut order = order_of(&changed);
    for to in 0..category.rules().count() {
        set_label(&mut changed, rotation.parent, to);
        let source = Source {
            order,
            place,
            from,
            to,
        };
        push_source(sources, category, strands, rotation, &changed, source)?;
        order = order.wrapping_add(step);
    }
    Ok(())
}

/// The sources of all new keys at which a raise may leave an amplitude, in their order.
pub(crate) fn sources_of<R: StarRing>(
    category: &Category<R>,
    strands: &[u8],
    rotation: &Rotation,
    amps: &Amps<R>,
) -> Result<Vec<Source>, AllocError>
    requires rotation { IsRotation (length strands.now) rotation.now }
    requires strands { All (λ s. s < category.now.rules.count) strands.now }
    requires amps { AreOver (R.ring category.now.ring) category.now.rules.count (length strands.now) amps.now }
    ensures keys { IfOk result (λ sources. (x : List ℕ) → among x (keys_of rotation.now amps.now sources.items)
        ≡ among x (targets_of (symbols R.StarRing category.now) strands.now rotation.now amps.now)) }
    ensures places { IfOk result (λ sources. All (λ s. s.place < length amps.now) sources.items) }
{
    let step = order_step(strands.len(), rotation.parent);
    let mut sources = Vec::new(amps.allocator());
    for place in 0..amps.len() {
        let (key, _) = amps.entry(place);
        push_row(&mut sources, category, strands, rotation, key, place, step)?;
    }
    sources.sort_unstable();
    Ok(sources)
}

/// The new key of a source.
pub(crate) fn new_key<R: StarRing>(amps: &Amps<R>, rotation: &Rotation, source: &Source) -> Key
    requires place { source.now.place < length amps.now }
    requires node { IsPlace (length (key_at amps.now source.now.place)) rotation.now.node }
    requires parent { IsPlace (length (key_at amps.now source.now.place)) rotation.now.parent }
    ensures { result.items ≡ spec_after rotation.now (key_at amps.now source.now.place) source.now.to }
{
    let (key, _) = amps.entry(source.place);
    after(key, rotation, source.to)
}

/// A place at which the old amplitude with this label at the node may stand, by the sources of its new key, which stand
/// first. The amplitude is the same at any place.
pub(crate) fn place_near(sources: &[Source], label: u8) -> usize {
    for source in sources {
        if source.order != sources[0].order || source.from >= label {
            return source.place;
        }
    }
    0
}
