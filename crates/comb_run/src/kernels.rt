//! The kernels of one operator by their six labels, each evaluated once.

ghost use Rattle.std.specs.Prelude.{◌≡◌, ℕ, [], List, OnOk, OnErr, IfOk, IsErrOf, Some, None, if◌then◌else◌};
ghost use Rattle.std.specs.Str.{bytes_eq};
ghost use Rattle.std.specs.Option.{option_copied};
ghost use Rattle.symbol_table.specs.Category.{symbols};
ghost use Rattle.symbol_table.specs.Draft.{IsMember};
ghost use Rattle.comb_run.specs.Kept.{labels_of, kept_at, AreKept};
ghost use Rattle.comb_run.specs.Operations.{kernel_at, charge_below, IsPlace};

use crate::kernel::{Place, kernel};
use arrayvec::ArrayVec;
use comb_laws::Operator;
use ring_laws::StarRing;
use std::alloc::{AllocError, Global};
use std::collections::BTreeMap;
use std::marker::Model;
use symbol_table::Category;
use word_runs::StepFault;

/// The six labels of a place, in the order of its fields.
type SixLabels = ArrayVec<u8, 6>;

/// The kernels of one operator that have been evaluated so far, by the labels of their places.
#[derive(Drop)]
pub(crate) struct Kernels<R: StarRing> {
    kept: BTreeMap<SixLabels, R::Elem>,
}

impl<R: StarRing> Model for Kernels<R> {
    ghost use Rattle.std.specs.Prelude.{ℕ, List};
    ghost use Rattle.arrayvec.specs.ArrayVec.{ArrayVec};

    ghost Value = { List (ArrayVec ℕ × R.Elem) };

    ghost view = { λ k. k.kept.entries };
}

impl<R: StarRing> Kernels<R> {
    /// No kernel yet.
    pub(crate) fn new(alloc: Global) -> Self
        ensures { result ≡ [] }
    {
        Kernels {
            kept: BTreeMap::new(alloc),
        }
    }

    /// The kernel that is kept at these labels, if there is one.
    fn get(&self, labels: &SixLabels) -> Option<&R::Elem>
        ensures { option_copied result ≡ kept_at self.now labels.now.items }
    {
        self.kept.get(labels)
    }

    /// Keeps a kernel at these labels.
    fn put(&mut self, labels: SixLabels, value: R::Elem) -> Result<(), AllocError>
        ensures ok { OnOk result ((x : List ℕ) → kept_at self.new x ≡ (if bytes_eq labels.items x then Some value else kept_at self.old x)) }
        ensures err { OnErr result (self.new ≡ self.old) }
    {
        match self.kept.insert(labels, value) {
            Ok(_) => Ok(()),
            Err(e) => Err(AllocError::from(e)),
        }
    }

    /// Evaluates a kernel, and keeps it at its labels.
    fn evaluate(
        &mut self,
        category: &Category<R>,
        operator: Operator,
        place: &Place,
        labels: SixLabels,
    ) -> Result<R::Elem, StepFault>
        requires place { IsPlace category.now.rules.count place.now }
        requires charge { charge_below category.now.rules.count operator }
        requires labels { labels.items ≡ labels_of place.now }
        requires kept { let c = symbols R.StarRing category.now in AreKept c.ring (kernel_at c operator) self.old }
        ensures value { IfOk result (λ v. kernel_at (symbols R.StarRing category.now) operator
            place.now.p place.now.a place.now.b place.now.y place.now.t place.now.u ≡ Some v) }
        ensures member { IfOk result (λ v. IsMember R.StarRing category.now v) }
        ensures too_large { IsErrOf result StepFault.TooLarge → kernel_at (symbols R.StarRing category.now) operator
            place.now.p place.now.a place.now.b place.now.y place.now.t place.now.u ≡ None }
        ensures kept { let c = symbols R.StarRing category.now in AreKept c.ring (kernel_at c operator) self.new }
    {
        let value = kernel(category, operator, place)?;
        self.put(labels, category.ring().copy(&value))?;
        Ok(value)
    }

    /// The kernel of the operator at a place: the one that is kept at its labels, or else evaluated and kept.
    ///
    /// Stops with [`StepFault::TooLarge`] exactly where an item of its evaluation doesn't fit.
    pub(crate) fn of(
        &mut self,
        category: &Category<R>,
        operator: Operator,
        place: &Place,
    ) -> Result<R::Elem, StepFault>
        requires place { IsPlace category.now.rules.count place.now }
        requires charge { charge_below category.now.rules.count operator }
        requires kept { let c = symbols R.StarRing category.now in AreKept c.ring (kernel_at c operator) self.old }
        ensures value { IfOk result (λ v. kernel_at (symbols R.StarRing category.now) operator
            place.now.p place.now.a place.now.b place.now.y place.now.t place.now.u ≡ Some v) }
        ensures member { IfOk result (λ v. IsMember R.StarRing category.now v) }
        ensures too_large { IsErrOf result StepFault.TooLarge → kernel_at (symbols R.StarRing category.now) operator
            place.now.p place.now.a place.now.b place.now.y place.now.t place.now.u ≡ None }
        ensures kept { let c = symbols R.StarRing category.now in AreKept c.ring (kernel_at c operator) self.new }
    {
        let labels = six_labels(place);
        if let Some(value) = self.get(&labels) {
            return Ok(category.ring().copy(value));
        }
        self.evaluate(category, operator, place, labels)
    }
}

/// The labels of a place.
fn six_labels(place: &Place) -> SixLabels
    ensures { result.items ≡ labels_of place.now }
{
    SixLabels::from([place.p, place.a, place.b, place.y, place.t, place.u])
}
