//! The factors of a raise: F from the left, H from the right.

ghost use Rattle.std.specs.Prelude.{◌≡◌, ◌<◌, ◌+◌, ◌-◌, IsTrue, All, length, slice_index, if◌then◌else◌};
ghost use Rattle.symbol_table.specs.Category.{symbols};
ghost use Rattle.symbol_table.specs.Draft.{f_index_admissible, given};
ghost use Rattle.recouple.specs.Rotations.{IsKey, IsRotation, label_at as spec_label_at, from_left};
ghost use Rattle.recouple.specs.Raises.{has_factor as spec_has_factor};

use crate::rotation::{Rotation, label_at};
use amp_store::Key;
use ring_laws::StarRing;
use symbol_table::{Category, FIndex};

/// The index of the factor from the label t at the node: F where the node was a left child, else H.
pub(crate) fn index_of(strands: &[u8], rotation: &Rotation, key: &Key, t: u8) -> FIndex
    requires rotation { IsRotation (length strands.now) rotation.now }
    requires key { length strands.now ≡ length key.now.items + 1 }
    ensures a { result.a ≡ spec_label_at strands.now key.now.items rotation.now.first }
    ensures b { result.b ≡ spec_label_at strands.now key.now.items rotation.now.second }
    ensures c { result.c ≡ spec_label_at strands.now key.now.items rotation.now.third }
    ensures d { result.d ≡ slice_index key.now.items (rotation.now.node - 1) }
    ensures e { result.e ≡ (if from_left rotation.now then t else slice_index key.now.items (rotation.now.parent - 1)) }
    ensures f { result.f ≡ (if from_left rotation.now then slice_index key.now.items (rotation.now.parent - 1) else t) }
{
    let labels = key.as_slice();
    let a = label_at(strands, labels, rotation.first);
    let b = label_at(strands, labels, rotation.second);
    let c = label_at(strands, labels, rotation.third);
    let d = labels[rotation.node as usize - 1];
    let u = labels[rotation.parent as usize - 1];
    if rotation.node < rotation.parent {
        FIndex {
            a,
            b,
            c,
            d,
            e: t,
            f: u,
        }
    } else {
        FIndex {
            a,
            b,
            c,
            d,
            e: u,
            f: t,
        }
    }
}

/// Whether the factor from the label t at the node is admissible.
pub(crate) fn has_factor<R: StarRing>(
    category: &Category<R>,
    strands: &[u8],
    rotation: &Rotation,
    key: &Key,
    t: u8,
) -> bool
    requires rotation { IsRotation (length strands.now) rotation.now }
    requires strands { All (λ s. s < category.now.rules.count) strands.now }
    requires key { IsKey category.now.rules.count (length strands.now) key.now.items }
    requires label { t < category.now.rules.count }
    ensures { result ≡ spec_has_factor (symbols R.StarRing category.now) strands.now rotation.now key.now.items t }
{
    index_of(strands, rotation, key, t).is_admissible(category.rules())
}

/// F at an index where the node was a left child, else H.
pub(crate) fn factor_at<R: StarRing>(
    category: &Category<R>,
    rotation: &Rotation,
    at: &FIndex,
) -> R::Elem
    requires { IsTrue (f_index_admissible (given category.now) at.now) }
    ensures value { let c = symbols R.StarRing category.now in
        result ≡ (if from_left rotation.now then c.f at.now.a at.now.b at.now.c at.now.d at.now.e at.now.f
        else c.h at.now.a at.now.b at.now.c at.now.d at.now.f at.now.e) }
    ensures member { IsTrue ((R.ring category.now.ring).member result) }
{
    if rotation.node < rotation.parent {
        category.f(at)
    } else {
        category.h(at)
    }
}
