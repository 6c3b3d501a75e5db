//! A key and its number.

ghost use Rattle.std.specs.Prelude.{◌≡◌, ◌<◌, ◌==◌, IfOk, length, slice_index};
ghost use Rattle.std.specs.List.{filter, AllByRecursion};
ghost use Rattle.amp_store.specs.Places.{amplitude_in, amplitudes_in};

use arrayvec::ArrayVec;
use ring_laws::StarRing;
use std::alloc::{AllocError, Global};
use std::rc::Rc;
use tree_shapes::KEY_LIMIT;

/// The labels of a tree's nodes, by their gaps from left to right: one for each strand after the first.
pub type Key = ArrayVec<u8, KEY_LIMIT>;

/// A key and its number, which copies share.
#[derive(Drop)]
pub(crate) struct Entry<R: StarRing> {
    pub(crate) key: Key,
    pub(crate) value: Rc<R::Elem>,
}

impl<R: StarRing> Clone for Entry<R> {
    ghost is_clone = { λ e copy. amplitude_in copy ≡ amplitude_in e };

    fn clone(&self) -> Result<Entry<R>, AllocError> {
        Ok(Entry {
            key: self.key.clone()?,
            value: self.value.clone()?,
        })
    }
}

/// The entries whose key has the label at the place, in their order.
pub(crate) fn with_label<R: StarRing>(
    alloc: Global,
    entries: &[Entry<R>],
    place: usize,
    label: u8,
) -> Result<Vec<Entry<R>>, AllocError>
    requires { AllByRecursion (λ e. place < length e.0) (amplitudes_in entries.now) }
    ensures { IfOk result (λ kept. amplitudes_in kept.items ≡ filter (λ e. slice_index e.0 place == label) (amplitudes_in entries.now)) }
{
    let mut kept = Vec::new(alloc);
    for entry in entries {
        if entry.key.as_slice()[place] == label {
            kept.push(entry.clone()?)?;
        }
    }
    Ok(kept)
}
