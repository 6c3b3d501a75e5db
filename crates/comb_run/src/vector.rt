//! Comb vectors by the keys of the paths whose value isn't zero.

ghost use Rattle.std.specs.Prelude.{◌≡◌, ◌↔◌, ◌<◌, ◌≤◌, ◌++◌, ℕ, [], List, length, slice_set, OnOk, OnErr, IfOk, if◌then◌else◌, Some, is_some, All, IsTrue};
ghost use Rattle.std.specs.Str.{bytes_eq};
ghost use Rattle.std.specs.Option.{option_copied};
ghost use Rattle.std.specs.Map.{keys_of};
ghost use Rattle.comb_run.specs.Entries.{path_of as spec_path_of, entry_at, vector_of, items_of, row_of, is_first, targets_of, AreMembers, AreEntries, AreOrdered};
ghost use Rattle.ring_laws.specs.Stated.{Gives};
ghost use Rattle.symbol_table.specs.Category.{symbols};
ghost use Rattle.comb_run.specs.Evaluated.{weight_at};
ghost use Rattle.symbol_table.specs.Draft.{IsMember};

use crate::key::{Key, Path, is_over, key_of, path_of};
use crate::weigh::add_path;
use ring_laws::{Overflow, StarRing};
use std::alloc::{AllocError, Global};
use std::collections::BTreeMap;
use std::marker::Model;
use symbol_table::Category;

/// The values of a comb vector by key, in the order of keys as lists of labels.
///
/// The strands tell which path a key stands for: each call that speaks of paths is given them.
#[derive(Drop)]
pub(crate) struct CombVector<R: StarRing> {
    entries: BTreeMap<Key, R::Elem>,
}

impl<R: StarRing> Model for CombVector<R> {
    ghost use Rattle.std.specs.Prelude.{ℕ, List};
    ghost use Rattle.arrayvec.specs.ArrayVec.{ArrayVec};

    ghost Value = { List (ArrayVec ℕ × R.Elem) };

    ghost view = { λ v. v.entries.entries };
}

impl<R: StarRing> CombVector<R> {
    /// A vector with no entry.
    pub(crate) fn new(alloc: Global) -> Self
        ensures { result ≡ [] }
    {
        CombVector {
            entries: BTreeMap::new(alloc),
        }
    }

    /// The value at a path over these strands, if there is one.
    pub(crate) fn get(&self, strands: &[u8], path: &Path) -> Option<&R::Elem>
        requires { 0 < length strands.now }
        ensures { option_copied result ≡ entry_at strands.now self.now path.now.items }
    {
        if !is_over(strands, path.as_slice()) {
            return None;
        }
        self.entries.get(&key_of(path))
    }

    /// Whether a path over these strands has a value.
    fn has(&self, strands: &[u8], path: &Path) -> bool
        requires { 0 < length strands.now }
        ensures { result ≡ is_some (entry_at strands.now self.now path.now.items) }
    {
        self.get(strands, path).is_some()
    }

    /// Gives a key this value: over any strands, the path of that key has it.
    pub(crate) fn put(&mut self, key: Key, value: R::Elem) -> Result<(), AllocError>
        ensures ok { OnOk result ((strands x : List ℕ) → entry_at strands self.new x
            ≡ (if bytes_eq (spec_path_of strands key.items) x then Some value else entry_at strands self.old x)) }
        ensures err { OnErr result (self.new ≡ self.old) }
    {
        match self.entries.insert(key, value) {
            Ok(_) => Ok(()),
            Err(e) => Err(AllocError::from(e)),
        }
    }

    /// How many paths have a value.
    pub(crate) fn len(&self) -> usize
        ensures count { result ≡ length self.now }
        ensures ordered { AreOrdered self.now }
    {
        self.entries.len()
    }

    /// Whether no path has a value.
    pub(crate) fn is_empty(&self) -> bool
        ensures { IsTrue result ↔ (self.now ≡ []) }
    {
        self.entries.is_empty()
    }

    /// Whether no path that differs in a smaller label at place k has a value.
    fn is_first(&self, strands: &[u8], path: &Path, k: usize) -> bool
        requires some { 0 < length strands.now }
        requires place { k < length path.now.items }
        ensures { result ≡ is_first strands.now self.now k path.now.items }
    {
        for label in 0..path.as_slice()[k] {
            if self.has(strands, &with_label(path, k, label)) {
                return false;
            }
        }
        true
    }

    /// The lists that agree with one of this vector's paths over these strands at all places but k, with each label
    /// there, each once. At k = 1 one of each row is a path: that with the first of the new strands.
    pub(crate) fn targets(
        &self,
        alloc: Global,
        strands: &[u8],
        k: usize,
        count: u8,
    ) -> Result<Vec<Path>, AllocError>
        requires some { 0 < length strands.now }
        requires places { (x : List ℕ) (v : R.Elem) → entry_at strands.now self.now x ≡ Some v → k < length x }
        ensures { IfOk result (λ paths. items_of paths.items ≡ targets_of count k strands.now self.now) }
    {
        let mut paths = Vec::new(alloc);
        for key in self.entries.keys() {
            let path = path_of(strands, key);
            if self.is_first(strands, &path, k) {
                push_row(&mut paths, &path, k, count)?;
            }
        }
        Ok(paths)
    }

    /// The weight over these strands, by prefix sums over the paths in their order.
    pub(crate) fn weight(&self, category: &Category<R>, strands: &[u8]) -> Result<R::Elem, Overflow>
        requires { AreEntries (symbols R.StarRing category.now) strands.now self.now }
        ensures value { let c = symbols R.StarRing category.now in
            Gives result (weight_at c strands.now (vector_of c.ring strands.now self.now)) }
        ensures member { IfOk result (λ z. IsMember R.StarRing category.now z) }
    {
        let mut sum = category.ring().zero();
        for (key, value) in self.entries.iter() {
            sum = add_path(category, strands, key, value, &sum)?;
        }
        Ok(sum)
    }
}

/// The value of a vector at a path over these strands: zero where it has none.
pub(crate) fn value_at<R: StarRing>(
    ring: &R,
    strands: &[u8],
    vector: &CombVector<R>,
    path: &Path,
) -> R::Elem
    requires some { 0 < length strands.now }
    requires members { AreMembers (R.ring ring.now) strands.now vector.now }
    ensures value { result ≡ vector_of (R.ring ring.now) strands.now vector.now path.now.items }
    ensures member { IsTrue ((R.ring ring.now).member result) }
{
    match vector.get(strands, path) {
        Some(value) => ring.copy(value),
        None => ring.zero(),
    }
}

/// The same path again.
fn copy_of(path: &Path) -> Path
    ensures { result.items ≡ path.now.items }
{
    let mut copied = Path::new();
    for x in path.as_slice() {
        copied.push(*x);
    }
    copied
}

/// The path with another label at one place.
pub(crate) fn with_label(path: &Path, k: usize, label: u8) -> Path
    requires { k < length path.now.items }
    ensures { result.items ≡ slice_set path.now.items k label }
{
    let mut changed = copy_of(path);
    changed.as_mut_slice()[k] = label;
    changed
}

/// Adds the path with each label at place k.
#[tactic(auto, using(crate::proofs::EntryLemmas::row_one))]
fn push_row(paths: &mut Vec<Path>, path: &Path, k: usize, count: u8) -> Result<(), AllocError>
    requires { k < length path.now.items }
    ensures { OnOk result (items_of paths.new.items ≡ items_of paths.old.items ++ row_of count k path.now.items) }
{
    for label in 0..count {
        paths.push(with_label(path, k, label))?;
    }
    Ok(())
}
