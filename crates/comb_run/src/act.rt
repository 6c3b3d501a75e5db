//! One step of the engine: an operator at a gap of a comb vector.

ghost use Rattle.std.specs.Prelude.{◌≡◌, ◌<◌, ◌≤◌, ◌+◌, ◌-◌, ℕ, List, All, IsTrue, drop, IfOk, OnOk, IsErrOf, length, true, false, is_some, Some, None, if◌then◌else◌};
ghost use Rattle.std.specs.Str.{bytes_eq};
ghost use Rattle.std.specs.Map.{keys_of};
ghost use Rattle.ring_laws.specs.Stated.{steps};
ghost use Rattle.fusion_rules.specs.Fusion.{AreRules};
ghost use Rattle.symbol_table.specs.Category.{symbols};
ghost use Rattle.comb_laws.specs.Paths.{goes_on as spec_goes_on, is_path as spec_is_path};
ghost use Rattle.comb_run.specs.Entries.{path_of, vector_of, entry_at, items_of, AreMembers, AreEntries};
ghost use Rattle.amp_store.specs.Gathered.{kept_of, gathered, among};
ghost use Rattle.comb_laws.specs.Paths.{IsAlong};
ghost use Rattle.comb_laws.specs.Operators.{acted};
ghost use Rattle.comb_run.specs.Evaluated.{acted_step, acted_at as spec_acted_at, acted_fits};
ghost use Rattle.comb_run.specs.Operations.{kernel_at, IsAction};
ghost use Rattle.comb_run.specs.Kept.{AreKept};
ghost use Rattle.comb_laws.specs.Operators.{kernel_of};
ghost use Rattle.symbol_table.specs.Draft.{IsMember};

use crate::kernel::Place;
use crate::kernels::Kernels;
use crate::key::{Path, key_of};
use crate::vector::{CombVector, value_at, with_label};
use comb_laws::Operator;
use ring_laws::{StarRing, add_product, is_zero};
use std::alloc::{AllocError, Global};
use symbol_table::Category;
use word_runs::StepFault;

/// An operator at a gap of these strands, and the strands that it leaves.
#[derive(Clone, Copy, Drop)]
pub(crate) struct Action<'a> {
    pub(crate) strands: &'a [u8],
    pub(crate) after: &'a [u8],
    pub(crate) gap: usize,
    pub(crate) operator: Operator,
}

/// Whether these labels, after p, go along the strands.
fn goes_on<R: StarRing>(category: &Category<R>, p: u8, strands: &[u8], at: &[u8]) -> bool
    requires p { p < category.now.rules.count }
    requires strands { All (λ x. x < category.now.rules.count) strands.now }
    ensures { result ≡ spec_goes_on (symbols R.StarRing category.now) p strands.now at.now }
{
    let [s, ss @ ..] = strands else {
        return at.is_empty();
    };
    let [x, xs @ ..] = at else {
        return false;
    };
    *x < category.rules().count()
        && category.rules().allows(p, *s, *x)
        && goes_on(category, *x, ss, xs)
}

/// Whether this is a path over the strands.
fn is_path<R: StarRing>(category: &Category<R>, strands: &[u8], at: &[u8]) -> bool
    requires some { 0 < category.now.rules.count }
    requires strands { All (λ x. x < category.now.rules.count) strands.now }
    ensures { result ≡ spec_is_path (symbols R.StarRing category.now) strands.now at.now }
{
    match at {
        [] => false,
        [x, xs @ ..] => *x == 0 && goes_on(category, 0, strands, xs),
    }
}

/// The term of the label t in the new value at a path, added to a sum where the old value isn't zero.
fn acted_term<R: StarRing>(
    category: &Category<R>,
    action: &Action,
    vector: &CombVector<R>,
    path: &Path,
    t: u8,
    sum: R::Elem,
    kernels: &mut Kernels<R>,
) -> Result<R::Elem, StepFault>
    requires action { IsAction category.now.rules.count action.now.operator action.now.strands.now action.now.after.now action.now.gap }
    requires along { IsAlong category.now.rules.count (length action.now.strands.now) path.now.items }
    requires label { t < category.now.rules.count }
    requires members { AreMembers (R.ring category.now.ring) action.now.strands.now vector.now }
    requires sum { IsMember R.StarRing category.now sum }
    requires kept { let c = symbols R.StarRing category.now in AreKept c.ring (kernel_at c action.now.operator) kernels.old }
    ensures value { let c = symbols R.StarRing category.now in
        IfOk result (λ z. acted_step c action.now.strands.now action.now.gap (kernel_at c action.now.operator) (vector_of c.ring action.now.strands.now vector.now) path.now.items t sum ≡ Some z) }
    ensures member { IfOk result (λ z. IsMember R.StarRing category.now z) }
    ensures too_large { let c = symbols R.StarRing category.now in
        IsErrOf result StepFault.TooLarge → acted_step c action.now.strands.now action.now.gap (kernel_at c action.now.operator) (vector_of c.ring action.now.strands.now vector.now) path.now.items t sum ≡ None }
    ensures kept { let c = symbols R.StarRing category.now in AreKept c.ring (kernel_at c action.now.operator) kernels.new }
{
    let k = action.gap;
    let old = value_at(
        category.ring(),
        action.strands,
        vector,
        &with_label(path, k, t),
    );
    if is_zero(category.ring(), &old) {
        return Ok(sum);
    }
    let labels = path.as_slice();
    let place = Place {
        p: labels[k - 1],
        a: action.strands[k - 1],
        b: action.strands[k],
        y: labels[k + 1],
        t,
        u: labels[k],
    };
    let by = kernels.of(category, action.operator, &place)?;
    let added = add_product(category.ring(), &sum, &by, &old)?;
    Ok(added)
}

/// The sum over the labels t of the terms in the new value at a path.
fn acted_sum<R: StarRing>(
    category: &Category<R>,
    action: &Action,
    vector: &CombVector<R>,
    path: &Path,
    kernels: &mut Kernels<R>,
) -> Result<R::Elem, StepFault>
    requires action { IsAction category.now.rules.count action.now.operator action.now.strands.now action.now.after.now action.now.gap }
    requires along { IsAlong category.now.rules.count (length action.now.strands.now) path.now.items }
    requires members { AreMembers (R.ring category.now.ring) action.now.strands.now vector.now }
    requires kept { let c = symbols R.StarRing category.now in AreKept c.ring (kernel_at c action.now.operator) kernels.old }
    ensures value { let c = symbols R.StarRing category.now in
        IfOk result (λ z. steps (acted_step c action.now.strands.now action.now.gap (kernel_at c action.now.operator) (vector_of c.ring action.now.strands.now vector.now) path.now.items) 0 c.count c.ring.zero ≡ Some z) }
    ensures member { IfOk result (λ z. IsMember R.StarRing category.now z) }
    ensures too_large { let c = symbols R.StarRing category.now in
        IsErrOf result StepFault.TooLarge → steps (acted_step c action.now.strands.now action.now.gap (kernel_at c action.now.operator) (vector_of c.ring action.now.strands.now vector.now) path.now.items) 0 c.count c.ring.zero ≡ None }
    ensures kept { let c = symbols R.StarRing category.now in AreKept c.ring (kernel_at c action.now.operator) kernels.new }
{
    let mut sum = category.ring().zero();
    for t in 0..category.rules().count() {
        sum = acted_term(category, action, vector, path, t, sum, kernels)?;
    }
    Ok(sum)
}

/// The new value at a path over the strands that the operator leaves.
fn acted_at<R: StarRing>(
    category: &Category<R>,
    action: &Action,
    vector: &CombVector<R>,
    path: &Path,
    kernels: &mut Kernels<R>,
) -> Result<R::Elem, StepFault>
    requires action { IsAction category.now.rules.count action.now.operator action.now.strands.now action.now.after.now action.now.gap }
    requires along { IsAlong category.now.rules.count (length action.now.strands.now) path.now.items }
    requires members { AreMembers (R.ring category.now.ring) action.now.strands.now vector.now }
    requires kept { let c = symbols R.StarRing category.now in AreKept c.ring (kernel_at c action.now.operator) kernels.old }
    ensures value { let c = symbols R.StarRing category.now in
        IfOk result (λ z. spec_acted_at c action.now.strands.now action.now.after.now action.now.gap (kernel_at c action.now.operator) (vector_of c.ring action.now.strands.now vector.now) path.now.items ≡ Some z) }
    ensures member { IfOk result (λ z. IsMember R.StarRing category.now z) }
    ensures too_large { let c = symbols R.StarRing category.now in
        IsErrOf result StepFault.TooLarge → spec_acted_at c action.now.strands.now action.now.after.now action.now.gap (kernel_at c action.now.operator) (vector_of c.ring action.now.strands.now vector.now) path.now.items ≡ None }
    ensures kept { let c = symbols R.StarRing category.now in AreKept c.ring (kernel_at c action.now.operator) kernels.new }
{
    if !is_path(category, action.after, path.as_slice()) {
        return Ok(category.ring().zero());
    }
    acted_sum(category, action, vector, path, kernels)
}

/// Gives the key of a path its value, unless that is zero.
fn put_unless_zero<R: StarRing>(
    ring: &R,
    vector: &mut CombVector<R>,
    path: &Path,
    value: R::Elem,
) -> Result<(), AllocError>
    requires { IsTrue ((R.ring ring.now).member value) }
    ensures { OnOk result ((strands x : List ℕ) → entry_at strands vector.new x ≡ (if R.held.is_zero value then entry_at strands vector.old x
        else (if bytes_eq (path_of strands (drop 2 path.now.items)) x then Some value else entry_at strands vector.old x))) }
{
    if is_zero(ring, &value) {
        return Ok(());
    }
    vector.put(key_of(path), value)
}

/// The entries of an operator's vector at these paths.
fn gather<R: StarRing>(
    alloc: Global,
    category: &Category<R>,
    action: &Action,
    vector: &CombVector<R>,
    targets: &[Path],
) -> Result<CombVector<R>, StepFault>
    requires action { IsAction category.now.rules.count action.now.operator action.now.strands.now action.now.after.now action.now.gap }
    requires members { AreMembers (R.ring category.now.ring) action.now.strands.now vector.now }
    requires rules { AreRules category.now.rules }
    requires targets { All (λ p. IsAlong category.now.rules.count (length action.now.strands.now) p.items) targets.now }
    ensures entries { let c = symbols R.StarRing category.now in
        IfOk result (λ new. (x : List ℕ) → entry_at action.now.after.now new x
        ≡ gathered c.held (acted c action.now.strands.now action.now.after.now action.now.gap (kernel_of c action.now.operator) (vector_of c.ring action.now.strands.now vector.now)) (items_of targets.now) x) }
    // Each item fits.
    ensures fits { let c = symbols R.StarRing category.now in
        IfOk result (λ _. (x : List ℕ) → among x (items_of targets.now) ≡ true
        → is_some (spec_acted_at c action.now.strands.now action.now.after.now action.now.gap (kernel_at c action.now.operator) (vector_of c.ring action.now.strands.now vector.now) x) ≡ true) }
    // A stop comes only where an item doesn't.
    ensures too_large { let c = symbols R.StarRing category.now in
        IsErrOf result StepFault.TooLarge → (x : List ℕ) × (among x (items_of targets.now) ≡ true)
        × (spec_acted_at c action.now.strands.now action.now.after.now action.now.gap (kernel_at c action.now.operator) (vector_of c.ring action.now.strands.now vector.now) x ≡ None) }
{
    let mut new = CombVector::new(alloc);
    let mut kernels = Kernels::new(alloc);
    for target in targets {
        let value = acted_at(category, action, vector, target, &mut kernels)?;
        put_unless_zero(category.ring(), &mut new, target, value)?;
    }
    Ok(new)
}

/// The entries of an operator's vector over the strands that it leaves.
///
/// Stops with [`StepFault::TooLarge`] exactly where an item of its evaluation doesn't fit.
pub(crate) fn act<R: StarRing>(
    alloc: Global,
    category: &Category<R>,
    action: &Action,
    vector: &CombVector<R>,
) -> Result<CombVector<R>, StepFault>
    requires action { IsAction category.now.rules.count action.now.operator action.now.strands.now action.now.after.now action.now.gap }
    requires entries { AreEntries (symbols R.StarRing category.now) action.now.strands.now vector.now }
    ensures vector { let c = symbols R.StarRing category.now in
        IfOk result (λ new. vector_of c.ring action.now.after.now new ≡ acted c action.now.strands.now action.now.after.now action.now.gap (kernel_of c action.now.operator) (vector_of c.ring action.now.strands.now vector.now)) }
    ensures entries { IfOk result (λ new. AreEntries (symbols R.StarRing category.now) action.now.after.now new) }
    ensures fits { let c = symbols R.StarRing category.now in
        IfOk result (λ _. acted_fits c action.now.strands.now action.now.after.now action.now.gap (kernel_at c action.now.operator) (vector_of c.ring action.now.strands.now vector.now) ≡ true) }
    ensures too_large { let c = symbols R.StarRing category.now in
        IsErrOf result StepFault.TooLarge → acted_fits c action.now.strands.now action.now.after.now action.now.gap (kernel_at c action.now.operator) (vector_of c.ring action.now.strands.now vector.now) ≡ false }
{
    let targets = vector.targets(alloc, action.strands, action.gap, category.rules().count())?;
    gather(alloc, category, action, vector, targets.as_slice())
}
