//! Keys before and after a raise.

ghost use Rattle.std.specs.Prelude.{◌≡◌, ◌<◌, ◌-◌, length, slice_index, slice_set};
ghost use Rattle.recouple.specs.Rotations.{IsPlace, before, after};

use crate::rotation::Rotation;
use amp_store::Key;

/// The same key again.
pub(crate) fn copy_of(key: &Key) -> Key
    ensures { result.items ≡ key.now.items }
{
    let mut copied = Key::new();
    // There is room, since both hold as much.
    let _ = copied.try_extend_from_slice(key.as_slice());
    copied
}

/// The key with the label of the gap `from` at the gap `to`, and then another one at `from`.
fn moved(key: &Key, from: u8, to: u8, label: u8) -> Key
    requires from { IsPlace (length key.now.items) from }
    requires to { IsPlace (length key.now.items) to }
    ensures { result.items ≡ slice_set (slice_set key.now.items (to - 1) (slice_index key.now.items (from - 1))) (from - 1) label }
{
    let mut changed = copy_of(key);
    let labels = changed.as_mut_slice();
    labels[to as usize - 1] = labels[from as usize - 1];
    labels[from as usize - 1] = label;
    changed
}

/// The old key at which a term of a new key's sum stands, with this label at the node.
pub(crate) fn before(key: &Key, rotation: &Rotation, label: u8) -> Key
    requires node { IsPlace (length key.now.items) rotation.now.node }
    requires parent { IsPlace (length key.now.items) rotation.now.parent }
    ensures { result.items ≡ before rotation.now key.now.items label }
{
    moved(key, rotation.node, rotation.parent, label)
}

/// The new key to which an old one adds a term, with this label at the parent.
pub(crate) fn after(key: &Key, rotation: &Rotation, label: u8) -> Key
    requires node { IsPlace (length key.now.items) rotation.now.node }
    requires parent { IsPlace (length key.now.items) rotation.now.parent }
    ensures { result.items ≡ after rotation.now key.now.items label }
{
    moved(key, rotation.parent, rotation.node, label)
}

/// Gives a key another label at a gap.
pub(crate) fn set_label(key: &mut Key, gap: u8, label: u8)
    requires { IsPlace (length key.old.items) gap }
    ensures { key.new.items ≡ slice_set key.old.items (gap - 1) label }
{
    key.as_mut_slice()[gap as usize - 1] = label;
}

/// The labels of a key as the digits of a number, by which keys are sorted. Nothing rests on it but the time that a raise
/// takes.
pub(crate) fn order_of(key: &Key) -> u128 {
    let mut order = 0u128;
    for label in key.as_slice() {
        order = order << 4 | u128::from(*label);
    }
    order
}

/// What a label more at a gap adds to that number, for a key over so many strands.
pub(crate) fn order_step(strands: usize, gap: u8) -> u128 {
    let mut step = 1u128;
    for _ in gap as usize + 1..strands {
        step = step.wrapping_mul(16);
    }
    step
}
