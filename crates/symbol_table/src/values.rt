ghost use Rattle.std.specs.Prelude.{◌≡◌, IsTrue, Option, Some, None, true, unwrap_or, IsSomeAnd, OnOk, OnErr, if◌then◌else◌};
ghost use Rattle.std.specs.Option.{ForSome, option_copied};
ghost use Rattle.std.specs.Ordering.{nat_cmp};
ghost use Rattle.std.specs.BTreeMap.{Updates, get, insert_entry};
ghost use Rattle.symbol_table.specs.Draft.{Marks, Sets, mark_fault, set_fault};
ghost use Rattle.symbol_table.specs.declared.draft.SetFault.TheVariants.{NotAdmissible, Repeated};

use crate::draft::{MarkFault, SetFault};
use ring_laws::StarRing;
use std::alloc::AllocError;
use std::collections::BTreeMap;

/// Why a value isn't set, where one was set before or not.
pub(crate) fn fault_at(admissible: bool, is_set: bool) -> Option<SetFault>
    ensures { result ≡ (if admissible then (if is_set then Some Repeated else None) else Some NotAdmissible) }
{
    if !admissible {
        return Some(SetFault::NotAdmissible);
    }
    if is_set {
        return Some(SetFault::Repeated);
    }
    None
}

/// Sets a value at a key that has none.
pub(crate) fn set_value<K: Ord + Drop, E: Drop>(
    values: &mut BTreeMap<K, E>,
    key: K,
    value: E,
) -> Result<(), SetFault>
    ensures told { Sets result (set_fault true (get K.cmp values.old key)) values.old.entries
        values.new.entries (insert_entry K.cmp values.old.entries key value) }
    ensures updates { OnOk result (Updates K.cmp values.old values.new key (Some value)) }
{
    if values.contains_key(&key) {
        return Err(SetFault::Repeated);
    }
    match values.insert(key, value) {
        Ok(_) => Ok(()),
        Err(_) => Err(SetFault::Memory),
    }
}

/// Sets the twist or the loop value of a label that has none.
pub(crate) fn set_mark<E: Drop>(
    values: &mut BTreeMap<u8, E>,
    label: u8,
    value: E,
) -> Result<(), MarkFault>
    ensures told { Marks result (mark_fault (get nat_cmp values.old label)) values.old.entries
        values.new.entries (insert_entry nat_cmp values.old.entries label value) }
    ensures updates { OnOk result (Updates nat_cmp values.old values.new label (Some value)) }
{
    match set_value(values, label, value) {
        Ok(()) => Ok(()),
        Err(SetFault::Memory) => Err(MarkFault::Memory),
        Err(_) => Err(MarkFault::Repeated),
    }
}

/// A copy of a value that was set, or one.
pub(crate) fn value_or_one<R: StarRing>(ring: &R, value: Option<&R::Elem>) -> R::Elem
    requires { ForSome value (λ x. IsTrue ((R.ring ring.now).member x.now)) }
    ensures value { result ≡ unwrap_or (option_copied value.entry) (R.ring ring.now).one }
    ensures member { IsTrue ((R.ring ring.now).member result) }
    ensures held { IsTrue (R.held.can_hold result) }
{
    match value {
        Some(x) => ring.copy(x),
        None => ring.one(),
    }
}

/// Puts a value at a key, in place of one that was there.
pub(crate) fn put_value<K: Ord + Drop, E: Drop>(
    values: &mut BTreeMap<K, E>,
    key: K,
    value: E,
) -> Result<(), AllocError>
    ensures ok { OnOk result (values.new.entries ≡ insert_entry K.cmp values.old.entries key value) }
    ensures err { OnErr result (values.new.entries ≡ values.old.entries) }
    ensures updates { OnOk result (Updates K.cmp values.old values.new key (Some value)) }
{
    match values.insert(key, value) {
        Ok(_) => Ok(()),
        Err(failed) => Err(AllocError::from(failed)),
    }
}

/// A copy of a value that is there.
pub(crate) fn copy_found<R: StarRing>(ring: &R, value: Option<&R::Elem>) -> R::Elem
    requires { IsSomeAnd (option_copied value) (λ x. IsTrue ((R.ring ring.now).member x)) }
    ensures value { option_copied value.entry ≡ Some result }
    ensures member { IsTrue ((R.ring ring.now).member result) }
    ensures held { IsTrue (R.held.can_hold result) }
{
    match value {
        Some(x) => ring.copy(x),
        None => unreachable!(),
    }
}
