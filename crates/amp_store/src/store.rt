//! Amplitudes by key.

ghost use Rattle.std.specs.Prelude.{◌≡◌, ◌<◌, ℕ, List, [], false, length, slice_get, slice_index, ◌==◌, Some, if◌then◌else◌, IfOk, OnOk, OnErr};
ghost use Rattle.std.specs.Str.{bytes_eq};
ghost use Rattle.std.specs.List.{filter, AllByRecursion};
ghost use Rattle.std.specs.Option.{option_copied};
ghost use Rattle.std.specs.BTreeMap.{insert_entry};
ghost use Rattle.amp_store.specs.Amplitudes.{AreAmplitudes, amplitude_at, key_cmp};

use crate::entry::{Entry, Key, with_label};
use crate::search::{find_near, place};
use ring_laws::StarRing;
use std::alloc::{AllocError, Global};
use std::marker::Model;
use std::rc::Rc;

/// An ordered map from keys to numbers that aren't zero, seen as the list of its keys, each with its number, in the
/// order of lists of labels.
#[derive(Drop)]
pub struct Amps<R: StarRing> {
    alloc: Global,
    entries: Vec<Entry<R>>,
}

impl<R: StarRing> Model for Amps<R> {
    ghost use Rattle.std.specs.Prelude.{ℕ, List};
    ghost use Rattle.amp_store.specs.Amplitudes.{AreAmplitudes};
    ghost use Rattle.amp_store.specs.Places.{amplitudes_in};

    ghost Value = { List (List ℕ × R.Elem) };

    ghost view = { λ a. amplitudes_in a.entries.items };

    ghost invariant = { λ a. AreAmplitudes R.held (amplitudes_in a.entries.items) };
}

impl<R: StarRing> Amps<R> {
    /// No amplitudes. Takes no memory.
    pub fn new(alloc: Global) -> Amps<R>
        ensures { result ≡ [] }
    {
        Amps {
            alloc,
            entries: Vec::new(alloc),
        }
    }

    /// No amplitudes, over the same allocator. Takes no memory.
    pub fn empty(&self) -> Amps<R>
        ensures { result ≡ [] }
    {
        Amps::new(self.alloc)
    }

    /// The allocator that the amplitudes take memory from.
    pub fn allocator(&self) -> Global {
        self.alloc
    }

    /// How many keys have an amplitude. Keys are in order and no number is zero.
    pub fn len(&self) -> usize
        ensures len { result ≡ length self.now }
        ensures amplitudes { AreAmplitudes R.held self.now }
    {
        self.entries.len()
    }

    /// The keys are in order, and no number is zero.
    pub fn in_order(&self)
        ensures { AreAmplitudes R.held self.now }
    {
        let _ = &self.entries;
    }

    /// The number of a key, if it has one.
    pub fn get(&self, key: &Key) -> Option<&R::Elem>
        ensures value { option_copied result ≡ amplitude_at self.now key.now.items }
        ensures nonzero { (v : R.Elem) → amplitude_at self.now key.now.items ≡ Some v → R.held.is_zero v ≡ false }
    {
        self.get_near(key, 0)
    }

    /// The number of a key, if it has one, with no search where the key stands at this place. The place counts from zero in
    /// the order of keys; it may be any number, and the answer is the same.
    pub fn get_near(&self, key: &Key, place: usize) -> Option<&R::Elem>
        ensures value { option_copied result ≡ amplitude_at self.now key.now.items }
        ensures nonzero { (v : R.Elem) → amplitude_at self.now key.now.items ≡ Some v → R.held.is_zero v ≡ false }
    {
        match find_near(&self.entries, key, place) {
            Ok(at) => Some(&self.entries[at].value),
            Err(_) => None,
        }
    }

    /// The key at a place below the length, in the order of keys, and its number.
    pub fn entry(&self, place: usize) -> (&Key, &R::Elem)
        requires { place < length self.now }
        ensures { slice_get self.now place ≡ Some (result.0.now.items, result.1.now) }
    {
        let entry = &self.entries[place];
        (&entry.key, &entry.value)
    }

    /// Gives a key this number, in place of one that it had. For want of memory nothing changes.
    pub fn put(&mut self, key: Key, value: R::Elem) -> Result<(), AllocError>
        requires { R.held.is_zero value ≡ false }
        ensures ok { OnOk result (self.new ≡ insert_entry key_cmp self.old key.items value) }
        ensures puts { OnOk result ((x : List ℕ) → amplitude_at self.new x ≡ (if bytes_eq key.items x then Some value else amplitude_at self.old x)) }
        ensures err { OnErr result (self.new ≡ self.old) }
    {
        let value = Rc::new(self.alloc, value)?;
        place(&mut self.entries, Entry { key, value })?;
        Ok(())
    }

    /// The same amplitudes again; their numbers are shared. An error comes for want of memory alone.
    pub fn copy(&self) -> Result<Amps<R>, AllocError>
        ensures { IfOk result (λ a. a ≡ self.now) }
    {
        Ok(Amps {
            alloc: self.alloc,
            entries: self.entries.clone()?,
        })
    }

    /// The amplitudes whose key has the label at the place, in their order; their numbers are shared. Places count from
    /// zero, and each key has to have the place. An error comes for want of memory alone.
    pub fn keep_label(&self, place: usize, label: u8) -> Result<Amps<R>, AllocError>
        requires { AllByRecursion (λ e. place < length e.0) self.now }
        ensures { IfOk result (λ a. a ≡ filter (λ e. slice_index e.0 place == label) self.now) }
    {
        Ok(Amps {
            alloc: self.alloc,
            entries: with_label(self.alloc, &self.entries, place, label)?,
        })
    }
}
