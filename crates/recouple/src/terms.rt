//! The terms of a new amplitude.

ghost use Rattle.std.specs.Prelude.{◌≡◌, ◌<◌, None, Some, IsTrue, OnErr, OnOk, All, length};
ghost use Rattle.symbol_table.specs.Category.{symbols};
ghost use Rattle.amp_store.specs.Amplitudes.{amplitude_of};
ghost use Rattle.recouple.specs.Rotations.{IsKey, IsRotation, before as spec_before};
ghost use Rattle.recouple.specs.Raises.{AreOver, raise_step, raised_at as spec_raised_at};

use crate::factors::{factor_at, index_of};
use crate::keys::{before, set_label};
use crate::rotation::Rotation;
use crate::sources::{Source, place_near};
use amp_store::{Amps, Key};
use ring_laws::{Overflow, StarRing};
use symbol_table::Category;

/// Adds the term of the label t in the amplitude of a new key to a sum, where the old amplitude isn't zero and the
/// factor is admissible. The old amplitude, whose key is given too, is looked for at a place first.
fn raise_term<R: StarRing>(
    category: &Category<R>,
    strands: &[u8],
    rotation: &Rotation,
    amps: &Amps<R>,
    key: &Key,
    t: u8,
    old_key: &Key,
    place: usize,
    sum: &mut R::Elem,
) -> Result<(), Overflow>
    requires rotation { IsRotation (length strands.now) rotation.now }
    requires strands { All (λ s. s < category.now.rules.count) strands.now }
    requires amps { AreOver (R.ring category.now.ring) category.now.rules.count (length strands.now) amps.now }
    requires key { IsKey category.now.rules.count (length strands.now) key.now.items }
    requires label { t < category.now.rules.count }
    requires old_key { old_key.now.items ≡ spec_before rotation.now key.now.items t }
    requires sum { IsTrue ((R.ring category.now.ring).member sum.old) }
    ensures ok { let c = symbols R.StarRing category.now in
        OnOk result (raise_step c strands.now rotation.now (amplitude_of c.ring amps.now) key.now.items t sum.old ≡ Some sum.new) }
    ensures err { let c = symbols R.StarRing category.now in
        OnErr result (raise_step c strands.now rotation.now (amplitude_of c.ring amps.now) key.now.items t sum.old ≡ None) }
    ensures member { OnOk result (IsTrue ((R.ring category.now.ring).member sum.new)) }
{
    let at = index_of(strands, rotation, key, t);
    if !at.is_admissible(category.rules()) {
        return Ok(());
    }
    let Some(old) = amps.get_near(old_key, place) else {
        return Ok(());
    };
    let factor = factor_at(category, rotation, &at);
    category.ring().add_product_to(sum, &factor, old)
}

/// Makes a zero the amplitude of a new key, whose sources stand first.
#[tactic(auto, using(ring_laws::proofs::StatedLemmas::steps_one, ring_laws::proofs::StatedLemmas::steps_none))]
pub(crate) fn raised_at<R: StarRing>(
    category: &Category<R>,
    strands: &[u8],
    rotation: &Rotation,
    amps: &Amps<R>,
    key: &Key,
    sources: &[Source],
    sum: &mut R::Elem,
) -> Result<(), Overflow>
    requires rotation { IsRotation (length strands.now) rotation.now }
    requires strands { All (λ s. s < category.now.rules.count) strands.now }
    requires amps { AreOver (R.ring category.now.ring) category.now.rules.count (length strands.now) amps.now }
    requires key { IsKey category.now.rules.count (length strands.now) key.now.items }
    requires zero { sum.old ≡ (R.ring category.now.ring).zero }
    requires sum { IsTrue ((R.ring category.now.ring).member sum.old) }
    ensures ok { let c = symbols R.StarRing category.now in
        OnOk result (spec_raised_at c strands.now rotation.now (amplitude_of c.ring amps.now) key.now.items ≡ Some sum.new) }
    ensures err { let c = symbols R.StarRing category.now in
        OnErr result (spec_raised_at c strands.now rotation.now (amplitude_of c.ring amps.now) key.now.items ≡ None) }
    ensures member { OnOk result (IsTrue ((R.ring category.now.ring).member sum.new)) }
{
    let mut old_key = before(key, rotation, 0);
    for t in 0..category.rules().count() {
        let place = place_near(sources, t);
        set_label(&mut old_key, rotation.node, t);
        raise_term(
            category, strands, rotation, amps, key, t, &old_key, place, sum,
        )?;
    }
    Ok(())
}
