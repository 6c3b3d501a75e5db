ghost use Rattle.std.specs.Prelude.{◌≡◌, ◌≢◌, [], ◌+◌, ◌<◌, ℕ, List, length, true, Some, None, is_some, OnOk, OnErr, IsErrOf};
ghost use Rattle.symbol_table.specs.Category.{symbols};
ghost use Rattle.tree_shapes.specs.Outlines.{size, raise_at};
ghost use Rattle.amp_store.specs.Amplitudes.{amplitude_at, amplitude_of};
ghost use Rattle.recouple.specs.Rotations.{IsKey};
ghost use Rattle.recouple.specs.States.{IsStateOf, comb, raise_of, stated_raise};

use crate::raising::raise_amps;
use crate::rotation::rotation_at;
use amp_store::Amps;
use arrayvec::ArrayVec;
use ring_laws::StarRing;
use std::marker::Model;
use symbol_table::Category;
use symbol_table::laws::all_labels;
use tree_shapes::{STRAND_LIMIT, Shape};
use word_runs::StepFault;

/// A state on a fusion tree: the labels of its strands, its shape, and its amplitudes, whose keys have at place k - 1 the
/// label of the node at gap k.
#[derive(Drop)]
pub struct TreeState<R: StarRing> {
    strands: ArrayVec<u8, STRAND_LIMIT>,
    shape: Shape,
    amps: Amps<R>,
}

impl<R: StarRing> Model for TreeState<R> {
    ghost use Rattle.recouple.specs.States.{State, coded_state};

    ghost Value = { State R.Elem };

    ghost coded = { coded_state R.Elem.code };

    ghost view = { λ s. record { strands = s.strands.items; shape = s.shape; amps = s.amps } };
}

impl<R: StarRing> TreeState<R> {
    /// A state of these strands, this shape and these amplitudes: the shape has a leaf for each strand, and each key a
    /// label for each gap.
    pub fn with_parts(
        strands: ArrayVec<u8, STRAND_LIMIT>,
        shape: Shape,
        amps: Amps<R>,
    ) -> TreeState<R>
        requires leaves { size shape ≡ length strands.items }
        requires keys { (key : List ℕ) (v : R.Elem) → amplitude_at amps key ≡ Some v → length strands.items ≡ length key + 1 }
        ensures strands { result.strands ≡ strands.items }
        ensures shape { result.shape ≡ shape }
        ensures amps { result.amps ≡ amps }
    {
        TreeState {
            strands,
            shape,
            amps,
        }
    }

    /// The labels of the strands, from left to right.
    pub fn strands(&self) -> &ArrayVec<u8, STRAND_LIMIT>
        ensures { result.now.items ≡ self.now.strands }
    {
        &self.strands
    }

    /// The shape of the tree.
    pub fn shape(&self) -> &Shape
        ensures { result.now ≡ self.now.shape }
    {
        &self.shape
    }

    /// The amplitudes.
    pub fn amps(&self) -> &Amps<R>
        ensures { result.now ≡ self.now.amps }
    {
        &self.amps
    }

    /// Raises a node over its parent. What the state stands for is kept, and where it had an amplitude it has one.
    ///
    /// Stops with [`StepFault::TooLarge`] exactly where an item of the evaluation doesn't fit. Refused, the state is
    /// unchanged. The node is at a gap of the shape, and the state is one of the category.
    pub fn raise(&mut self, category: &Category<R>, k: u8) -> Result<(), StepFault>
        requires low { 0 < k }
        requires gap { k < size self.old.shape }
        requires of { IsStateOf (symbols R.StarRing category.now) self.old }
        ensures strands { OnOk result (self.new.strands ≡ self.old.strands) }
        ensures shape { OnOk result (self.new.shape ≡ raise_at k self.old.shape 0) }
        ensures amplitudes { let c = symbols R.StarRing category.now in
            OnOk result (amplitude_of c.ring self.new.amps ≡ raise_of c k self.old) }
        ensures fits { let c = symbols R.StarRing category.now in
            OnOk result ((key : List ℕ) → is_some (stated_raise c k self.old key) ≡ true) }
        ensures too_large { let c = symbols R.StarRing category.now in
            IsErrOf result StepFault.TooLarge → (key : List ℕ) × IsKey c.count (length self.old.strands) key × (stated_raise c k self.old key ≡ None) }
        ensures err { OnErr result (self.new ≡ self.old) }
        ensures of { OnOk result (IsStateOf (symbols R.StarRing category.now) self.new) }
        ensures keeps { let c = symbols R.StarRing category.now in
            OnOk result (comb c self.new ≡ comb c self.old) }
        ensures some { OnOk result (self.old.amps ≢ [] → self.new.amps ≢ []) }
    {
        // What the symbols obey at all labels.
        all_labels(category);
        let Some(rotation) = rotation_at(&self.shape, k) else {
            return Ok(());
        };
        match raise_amps(category, self.strands.as_slice(), &rotation, &self.amps) {
            Ok(raised) => {
                self.amps = raised;
                self.shape.raise(k);
                Ok(())
            }
            Err(fault) => Err(fault),
        }
    }
}
