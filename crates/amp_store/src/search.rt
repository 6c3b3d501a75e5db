//! Where a key stands among entries in order.

ghost use Rattle.std.specs.Prelude.{◌≡◌, IfOk, IfErr, OnOk, OnErr};
ghost use Rattle.std.specs.BTreeMap.{insert_entry};
ghost use Rattle.std.specs.Map.{keys_of};
ghost use Rattle.std.specs.List.Sorted.{IsStrictlySortedBy};
ghost use Rattle.amp_store.specs.Amplitudes.{key_cmp};
ghost use Rattle.amp_store.specs.Places.{IsAt, IsGap, amplitudes_in};

use crate::entry::{Entry, Key};
use ring_laws::StarRing;
use std::alloc::AllocError;
use std::cmp::Ordering;

/// Puts an entry among entries in order, in place of one with its key.
pub(crate) fn place<R: StarRing>(
    entries: &mut Vec<Entry<R>>,
    entry: Entry<R>,
) -> Result<(), AllocError>
    requires { IsStrictlySortedBy key_cmp (keys_of (amplitudes_in entries.old.items)) }
    ensures ok { OnOk result (amplitudes_in entries.new.items ≡ insert_entry key_cmp (amplitudes_in entries.old.items) entry.key.items entry.value.value) }
    ensures err { OnErr result (entries.new.items ≡ entries.old.items) }
{
    match find_from_end(entries, &entry.key) {
        Ok(at) => {
            entries[at] = entry;
            Ok(())
        }
        Err(at) => Ok(entries.insert(at, entry)?),
    }
}

/// The place of a key among entries in order, or where it would go, with no search where that is behind all of them.
fn find_from_end<R: StarRing>(entries: &[Entry<R>], key: &Key) -> Result<usize, usize>
    requires { IsStrictlySortedBy key_cmp (keys_of (amplitudes_in entries.now)) }
    ensures found { IfOk result (IsAt (amplitudes_in entries.now) key.now.items) }
    ensures absent { IfErr result (IsGap (amplitudes_in entries.now) key.now.items) }
{
    let end = entries.len();
    if end > 0 && entries[end - 1].key.cmp(key).is_lt() {
        return Err(end);
    }
    find(entries, key)
}

/// The place of a key among entries in order, or where it would go, with no search where it stands at this place.
pub(crate) fn find_near<R: StarRing>(
    entries: &[Entry<R>],
    key: &Key,
    place: usize,
) -> Result<usize, usize>
    requires { IsStrictlySortedBy key_cmp (keys_of (amplitudes_in entries.now)) }
    ensures found { IfOk result (IsAt (amplitudes_in entries.now) key.now.items) }
    ensures absent { IfErr result (IsGap (amplitudes_in entries.now) key.now.items) }
{
    if place < entries.len() && entries[place].key == *key {
        return Ok(place);
    }
    find(entries, key)
}

/// The place of a key among entries in order, or where it would go.
pub(crate) fn find<R: StarRing>(entries: &[Entry<R>], key: &Key) -> Result<usize, usize>
    requires { IsStrictlySortedBy key_cmp (keys_of (amplitudes_in entries.now)) }
    ensures found { IfOk result (IsAt (amplitudes_in entries.now) key.now.items) }
    ensures absent { IfErr result (IsGap (amplitudes_in entries.now) key.now.items) }
{
    let mut low = 0;
    let mut high = entries.len();
    while low < high {
        let middle = low + (high - low) / 2;
        match entries[middle].key.cmp(key) {
            Ordering::Less => low = middle + 1,
            Ordering::Equal => return Ok(middle),
            Ordering::Greater => high = middle,
        }
    }
    Err(low)
}
