ghost use Rattle.std.specs.Prelude.{◌≡◌, ◌<◌, ◌↔◌, IsTrue, IfOk, length};
ghost use Rattle.ring_laws.specs.Stated.{product_at, sum_at};
ghost use Rattle.symbol_table.specs.Index.{AreSixLabels, AreThreeLabels};
ghost use Rattle.symbol_table.specs.Draft.{given};
ghost use Rattle.symbol_table.specs.Derived.{HoldsSymbols};
ghost use Rattle.symbol_table.specs.Category.{symbols};
ghost use Rattle.kept_values.specs.Kept.{Grows, Told, value_of};
ghost use Rattle.shape_check.specs.Place.{six, three};
ghost use Rattle.shape_check.specs.Shapes.{symbol_of};
ghost use Rattle.shape_check.specs.Table.{AreNumbers, IsNumber, f_at, vertex_at};

use crate::place::{six, six_at, six_place, three, three_at, three_place};
use crate::shape::Exchange;
use fusion_rules::Rules;
use kept_values::{Kept, Spread, Stop};
use std::alloc::{AllocError, Global};
use std::marker::Model;
use symbol_table::{Derived, Draft, FIndex, VIndex};

/// F, R and S of a draft at all labels, as numbers of kept values.
///
/// Seen as the draft and the values that are kept.
#[derive(Drop)]
pub(crate) struct Table<'a, R: Spread> {
    draft: &'a Draft<R>,
    kept: Kept<'a, R>,
    f: Vec<u32>,
    r: Vec<u32>,
    s: Vec<u32>,
}

impl<'a, R: Spread> Model for Table<'a, R> {
    ghost use Rattle.symbol_table.specs.Category.{draft_symbols};
    ghost use Rattle.shape_check.specs.Table.{IsTable, TableValue};

    ghost Value = { TableValue R R.Elem };

    ghost view = { λ t. record { draft = t.draft.now; values = t.kept.values } };

    ghost invariant = { λ t. IsTable (draft_symbols (R.ring t.draft.now.ring) R.held t.draft.now)
        t.draft.now t.kept t.f.items t.r.items t.s.items };
}

/// The number of F at six labels.
fn f_number<R: Spread>(kept: &mut Kept<R>, draft: &Draft<R>, at: FIndex) -> Result<u32, AllocError>
    requires labels { AreSixLabels draft.now.rules.count at.a at.b at.c at.d at.e at.f }
    requires ring { kept.old.ring ≡ draft.now.ring }
    ensures ring { kept.new.ring ≡ kept.old.ring }
    ensures grows { Grows kept.old.values kept.new.values }
    ensures value { IfOk result (IsNumber (R.ring draft.now.ring) kept.new.values
        ((symbols R.StarRing draft.now).f at.a at.b at.c at.d at.e at.f)) }
{
    if !at.is_admissible(draft.rules()) {
        return Ok(kept.zero());
    }
    kept.number_of(draft.f_at(at.a, at.b, at.c, at.d, at.e, at.f))
}

/// The numbers of F at all labels, by their places.
#[tactic(auto, using(crate::proofs::TableLemmas::first_grown, crate::proofs::TableLemmas::first_more, kept_values::proofs::ToldLemmas::grows_on))]
fn f_numbers<R: Spread>(
    alloc: Global,
    kept: &mut Kept<R>,
    draft: &Draft<R>,
) -> Result<Vec<u32>, AllocError>
    requires ring { kept.old.ring ≡ draft.now.ring }
    ensures ring { kept.new.ring ≡ kept.old.ring }
    ensures grows { Grows kept.old.values kept.new.values }
    ensures value { IfOk result (λ v. AreNumbers (R.ring draft.now.ring) kept.new.values
        (six draft.now.rules.count) (f_at (symbols R.StarRing draft.now)) v.items) }
{
    let n = draft.rules().count();
    let end = six(n);
    let mut numbers = Vec::new(alloc);
    for k in 0..end {
        let number = f_number(kept, draft, six_at(n, k))?;
        numbers.push(number)?;
    }
    Ok(numbers)
}

/// The number of R or S at three labels.
fn vertex_number<R: Spread>(
    kept: &mut Kept<R>,
    draft: &Draft<R>,
    derived: &Derived<R>,
    exchange: Exchange,
    at: VIndex,
) -> Result<u32, AllocError>
    requires labels { AreThreeLabels draft.now.rules.count at.a at.b at.c }
    requires ring { kept.old.ring ≡ draft.now.ring }
    requires holds { HoldsSymbols (R.ring draft.now.ring) (given draft.now) derived.now }
    ensures ring { kept.new.ring ≡ kept.old.ring }
    ensures grows { Grows kept.old.values kept.new.values }
    ensures value { IfOk result (IsNumber (R.ring draft.now.ring) kept.new.values
        (symbol_of (symbols R.StarRing draft.now) exchange at.a at.b at.c)) }
{
    match exchange {
        Exchange::Positive => kept.number_of(draft.r_at(at.a, at.b, at.c)),
        Exchange::Negative => kept.number_of(derived.s_at(draft, at.a, at.b, at.c)),
    }
}

/// The numbers of R or S at all labels, by their places.
#[tactic(auto, using(crate::proofs::TableLemmas::first_grown, crate::proofs::TableLemmas::first_more, kept_values::proofs::ToldLemmas::grows_on))]
fn vertex_numbers<R: Spread>(
    alloc: Global,
    kept: &mut Kept<R>,
    draft: &Draft<R>,
    derived: &Derived<R>,
    exchange: Exchange,
) -> Result<Vec<u32>, AllocError>
    requires ring { kept.old.ring ≡ draft.now.ring }
    requires holds { HoldsSymbols (R.ring draft.now.ring) (given draft.now) derived.now }
    ensures ring { kept.new.ring ≡ kept.old.ring }
    ensures grows { Grows kept.old.values kept.new.values }
    ensures value { IfOk result (λ v. AreNumbers (R.ring draft.now.ring) kept.new.values
        (three draft.now.rules.count) (vertex_at (symbols R.StarRing draft.now) exchange) v.items) }
{
    let n = draft.rules().count();
    let end = three(n);
    let mut numbers = Vec::new(alloc);
    for k in 0..end {
        let number = vertex_number(kept, draft, derived, exchange, three_at(n, k))?;
        numbers.push(number)?;
    }
    Ok(numbers)
}

impl<'a, R: Spread> Table<'a, R> {
    /// The table of a draft, with room for so many products and as many sums. Asks that the derived values are those
    /// of the draft.
    #[tactic(auto, using(crate::proofs::TableLemmas::table_made))]
    pub(crate) fn new(
        alloc: Global,
        draft: &'a Draft<R>,
        derived: &Derived<R>,
        room: usize,
    ) -> Result<Table<'a, R>, AllocError>
        requires room { 0 < room }
        requires holds { HoldsSymbols (R.ring draft.now.ring) (given draft.now) derived.now }
        ensures { IfOk result (λ t. t.draft ≡ draft.now) }
    {
        let mut kept = Kept::new(alloc, draft.ring(), room)?;
        let f = f_numbers(alloc, &mut kept, draft)?;
        let r = vertex_numbers(alloc, &mut kept, draft, derived, Exchange::Positive)?;
        let s = vertex_numbers(alloc, &mut kept, draft, derived, Exchange::Negative)?;
        Ok(Table {
            draft,
            kept,
            f,
            r,
            s,
        })
    }

    /// The fusion rules of the draft.
    pub(crate) fn rules(&self) -> &Rules
        ensures { result.now ≡ self.now.draft.rules }
    {
        self.draft.rules()
    }

    /// The numbers of F by their places.
    fn f_numbers(&self) -> &[u32]
        ensures { AreNumbers (R.ring self.now.draft.ring) self.now.values (six self.now.draft.rules.count)
            (f_at (symbols R.StarRing self.now.draft)) result.now }
    {
        let _ = self.draft;
        self.f.as_slice()
    }

    /// The numbers of R or S by their places.
    fn vertex_numbers(&self, exchange: Exchange) -> &[u32]
        ensures { AreNumbers (R.ring self.now.draft.ring) self.now.values (three self.now.draft.rules.count)
            (vertex_at (symbols R.StarRing self.now.draft) exchange) result.now }
    {
        let _ = self.draft;
        match exchange {
            Exchange::Positive => self.r.as_slice(),
            Exchange::Negative => self.s.as_slice(),
        }
    }

    /// The number of F at six labels.
    pub(crate) fn f(&self, a: u8, b: u8, c: u8, d: u8, e: u8, f: u8) -> u32
        requires { AreSixLabels self.now.draft.rules.count a b c d e f }
        ensures { IsNumber (R.ring self.now.draft.ring) self.now.values
            ((symbols R.StarRing self.now.draft).f a b c d e f) result }
    {
        let n = self.rules().count();
        self.f_numbers()[six_place(n, a, b, c, d, e, f)]
    }

    /// The number of R or S at three labels.
    pub(crate) fn vertex(&self, exchange: Exchange, a: u8, b: u8, c: u8) -> u32
        requires { AreThreeLabels self.now.draft.rules.count a b c }
        ensures { IsNumber (R.ring self.now.draft.ring) self.now.values
            (symbol_of (symbols R.StarRing self.now.draft) exchange a b c) result }
    {
        let n = self.rules().count();
        self.vertex_numbers(exchange)[three_place(n, a, b, c)]
    }

    /// The number of zero.
    pub(crate) fn zero(&self) -> u32
        ensures { IsNumber (R.ring self.now.draft.ring) self.now.values (R.ring self.now.draft.ring).zero result }
    {
        let _ = self.draft;
        self.kept.zero()
    }

    /// The number of the product of two kept values, or too large.
    #[tactic(auto, using(crate::proofs::TableLemmas::table_grown))]
    pub(crate) fn product(&mut self, x: u32, y: u32) -> Result<u32, Stop>
        requires left { x < length self.old.values }
        requires right { y < length self.old.values }
        ensures draft { self.new.draft ≡ self.old.draft }
        ensures grows { Grows self.old.values self.new.values }
        ensures value { let ring = R.ring self.old.draft.ring in
            Told ring self.new.values result
            (product_at ring (value_of ring self.old.values x) (value_of ring self.old.values y)) }
    {
        let _ = self.draft;
        self.kept.product(x, y)
    }

    /// The number of the sum of two kept values, or too large.
    #[tactic(auto, using(crate::proofs::TableLemmas::table_grown))]
    pub(crate) fn sum(&mut self, x: u32, y: u32) -> Result<u32, Stop>
        requires left { x < length self.old.values }
        requires right { y < length self.old.values }
        ensures draft { self.new.draft ≡ self.old.draft }
        ensures grows { Grows self.old.values self.new.values }
        ensures value { let ring = R.ring self.old.draft.ring in
            Told ring self.new.values result
            (sum_at ring (value_of ring self.old.values x) (value_of ring self.old.values y)) }
    {
        let _ = self.draft;
        self.kept.sum(x, y)
    }

    /// Whether two kept values are equal.
    pub(crate) fn same(&self, x: u32, y: u32) -> bool
        requires left { x < length self.now.values }
        requires right { y < length self.now.values }
        ensures { let ring = R.ring self.now.draft.ring in
            IsTrue result ↔ (value_of ring self.now.values x ≡ value_of ring self.now.values y) }
    {
        let _ = self.draft;
        self.kept.same(x, y)
    }
}
