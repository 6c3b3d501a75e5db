//! The amplitudes after a node was raised over its parent.

ghost use Rattle.std.specs.Prelude.{◌≡◌, ◌<◌, ℕ, List, true, false, Some, None, IsTrue, IfOk, OnOk, IsErrOf, All, length, is_some, if◌then◌else◌};
ghost use Rattle.std.specs.Str.{bytes_eq};
ghost use Rattle.symbol_table.specs.Category.{symbols};
ghost use Rattle.amp_store.specs.Amplitudes.{amplitude_at, amplitude_of, AreAmplitudes};
ghost use Rattle.recouple.specs.Rotations.{IsKey, IsRotation};
ghost use Rattle.recouple.specs.Raises.{AreOver, raised, raised_at as spec_raised_at};
ghost use Rattle.recouple.specs.Targets.{keys_of};
ghost use Rattle.amp_store.specs.Gathered.{among, gathered};

use crate::keys::copy_of;
use crate::rotation::Rotation;
use crate::sources::{Source, new_key, sources_of};
use crate::terms::raised_at;
use amp_store::{Amps, Key};
use ring_laws::{StarRing, is_zero};
use std::alloc::AllocError;
use symbol_table::Category;
use word_runs::StepFault;

/// Gives a key its amplitude, unless that is zero.
fn put_unless_zero<R: StarRing>(
    ring: &R,
    amps: &mut Amps<R>,
    key: &Key,
    value: R::Elem,
) -> Result<(), AllocError>
    requires { IsTrue ((R.ring ring.now).member value) }
    ensures { OnOk result ((x : List ℕ) → amplitude_at amps.new x ≡ (if R.held.is_zero value then amplitude_at amps.old x
        else (if bytes_eq key.now.items x then Some value else amplitude_at amps.old x))) }
{
    if is_zero(ring, &value) {
        return Ok(());
    }
    amps.put(copy_of(key), value)
}

/// Whether the key of the source at a place may be another than the last one, which is that of the source before it. Keys
/// are compared only where the sources have one order.
fn may_differ(sources: &[Source], i: usize, key: &Key, last: &Key) -> bool
    requires { i < length sources.now }
    ensures { result ≡ false → key.now.items ≡ last.now.items }
{
    i == 0 || sources[i].order != sources[i - 1].order || key != last
}

/// The amplitudes of the new keys of these sources, evaluated in their order. Sources of one key stand together.
fn raise_keys<R: StarRing>(
    category: &Category<R>,
    strands: &[u8],
    rotation: &Rotation,
    amps: &Amps<R>,
    sources: &[Source],
) -> Result<Amps<R>, StepFault>
    requires rotation { IsRotation (length strands.now) rotation.now }
    requires strands { All (λ s. s < category.now.rules.count) strands.now }
    requires amps { AreOver (R.ring category.now.ring) category.now.rules.count (length strands.now) amps.now }
    requires places { All (λ s. s.place < length amps.now) sources.now }
    requires keys { (x : List ℕ) → among x (keys_of rotation.now amps.now sources.now) ≡ true → IsKey category.now.rules.count (length strands.now) x }
    ensures entries { let c = symbols R.StarRing category.now in
        IfOk result (λ new. (x : List ℕ) → amplitude_at new x ≡ gathered c.held (raised c strands.now rotation.now (amplitude_of c.ring amps.now)) (keys_of rotation.now amps.now sources.now) x) }
    ensures fits { let c = symbols R.StarRing category.now in
        IfOk result (λ _. (x : List ℕ) → among x (keys_of rotation.now amps.now sources.now) ≡ true
        → is_some (spec_raised_at c strands.now rotation.now (amplitude_of c.ring amps.now) x) ≡ true) }
    ensures too_large { let c = symbols R.StarRing category.now in
        IsErrOf result StepFault.TooLarge → (x : List ℕ) × IsKey c.count (length strands.now) x
        × (spec_raised_at c strands.now rotation.now (amplitude_of c.ring amps.now) x ≡ None) }
{
    let mut new = amps.empty();
    let mut last = Key::new();
    for i in 0..sources.len() {
        let key = new_key(amps, rotation, &sources[i]);
        if may_differ(sources, i, &key, &last) {
            let mut value = category.ring().zero();
            raised_at(
                category,
                strands,
                rotation,
                amps,
                &key,
                &sources[i..],
                &mut value,
            )?;
            put_unless_zero(category.ring(), &mut new, &key, value)?;
            last = key;
        }
    }
    Ok(new)
}

/// The amplitudes after a rotation.
///
/// Stops with [`StepFault::TooLarge`] exactly where an item of their evaluation doesn't fit.
pub(crate) fn raise_amps<R: StarRing>(
    category: &Category<R>,
    strands: &[u8],
    rotation: &Rotation,
    amps: &Amps<R>,
) -> Result<Amps<R>, StepFault>
    requires rotation { IsRotation (length strands.now) rotation.now }
    requires strands { All (λ s. s < category.now.rules.count) strands.now }
    requires amps { AreOver (R.ring category.now.ring) category.now.rules.count (length strands.now) amps.now }
    ensures amplitudes { let c = symbols R.StarRing category.now in
        IfOk result (λ new. amplitude_of c.ring new ≡ raised c strands.now rotation.now (amplitude_of c.ring amps.now)) }
    ensures over { IfOk result (λ new. AreOver (R.ring category.now.ring) category.now.rules.count (length strands.now) new) }
    ensures ordered { AreAmplitudes R.held amps.now }
    ensures ordered_new { IfOk result (λ new. AreAmplitudes R.held new) }
    ensures fits { let c = symbols R.StarRing category.now in
        IfOk result (λ _. (x : List ℕ) → is_some (spec_raised_at c strands.now rotation.now (amplitude_of c.ring amps.now) x) ≡ true) }
    ensures too_large { let c = symbols R.StarRing category.now in
        IsErrOf result StepFault.TooLarge → (x : List ℕ) × IsKey c.count (length strands.now) x
        × (spec_raised_at c strands.now rotation.now (amplitude_of c.ring amps.now) x ≡ None) }
{
    amps.in_order();
    let sources = sources_of(category, strands, rotation, amps)?;
    match raise_keys(category, strands, rotation, amps, sources.as_slice()) {
        Ok(new) => {
            new.in_order();
            Ok(new)
        }
        Err(fault) => Err(fault),
    }
}
