ghost use Rattle.std.specs.Prelude.{◌≡◌, ◌<◌, ◌↔◌, IsTrue, IfOk, IfSome, length, All, replicate, Ok, [], ◌∷◌};
ghost use Rattle.ring_laws.specs.Stated.{Gives, product_at, sum_at};
ghost use Rattle.kept_values.specs.Memos.{IsMemo};
ghost use Rattle.kept_values.specs.Kept.{KeptValues, Grows, Numbered, IsNumberOf, Tells, Told, value_of};

use crate::memo::{Memo, find, put};
use crate::spread::Spread;
use ring_laws::Overflow;
use std::alloc::{AllocError, Global};
use std::collections::HashMap;
use std::marker::Model;

/// Why there is no number of a product or a sum.
#[derive(Clone, Copy, Debug, PartialEq, Eq)]
pub enum Stop {
    /// The product or the sum is too large for the element type.
    TooLarge,
    /// There was no memory for one value more.
    Memory,
}

impl From<AllocError> for Stop {
    ghost use Rattle.kept_values.specs.declared.kept.Stop.TheVariants.{Memory};

    ghost from_gives = { λ _ stop. stop ≡ Memory };

    fn from(_error: AllocError) -> Stop {
        Stop::Memory
    }
}

/// A numbered answer that was remembered.
fn told(answer: Result<u32, Overflow>) -> Result<u32, Stop>
    ensures { Tells result answer }
{
    match answer {
        Ok(id) => Ok(id),
        Err(_) => Err(Stop::TooLarge),
    }
}

/// Values of a ring, each told by a number, with products and sums that were formed before.
#[derive(Drop)]
pub struct Kept<'a, R: Spread> {
    ring: &'a R,
    values: Vec<R::Elem>,
    numbers: HashMap<u64, u32>,
    products: Vec<Memo>,
    sums: Vec<Memo>,
}

impl<'a, R: Spread> Model for Kept<'a, R> {
    ghost use Rattle.kept_values.specs.Kept.{KeptValues};

    ghost Value = { KeptValues R R.Elem };

    ghost use Rattle.kept_values.specs.Memos.{IsKept};

    ghost view = { λ t. record { ring = t.ring.now; values = t.values.items } };

    ghost invariant = { λ t. IsKept (R.ring t.ring.now) t.values.items t.products.items t.sums.items };
}

/// As many slots, all of which say that 0 and 0 give 0.
fn slots(alloc: Global, count: usize) -> Result<Vec<Memo>, AllocError>
    ensures { IfOk result (λ v. v.items ≡ replicate count (record { left = 0; right = 0; answer = Ok 0 })) }
{
    vec![in alloc; Memo {
        left: 0,
        right: 0,
        answer: Ok(0)
    }; count]
}

impl<'a, R: Spread> Kept<'a, R> {
    /// The zero of a ring, kept as the number 0, with room for so many products and as many sums.
    ///
    /// A power of two as the room is the fastest; where there is no room for an answer, it forgets another.
    pub fn new(alloc: Global, ring: &'a R, room: usize) -> Result<Kept<'a, R>, AllocError>
        requires { 0 < room }
        ensures ring { IfOk result (λ kept. kept.ring ≡ ring.now) }
        ensures zero { IfOk result (λ kept. kept.values ≡ (R.ring ring.now).zero ∷ []) }
    {
        let products = slots(alloc, room)?;
        let sums = slots(alloc, room)?;
        let zero = ring.zero();
        let mut numbers = HashMap::new(alloc);
        numbers.insert(ring.spread(&zero), 0)?;
        let mut values = Vec::new(alloc);
        values.push(zero)?;
        Ok(Kept {
            ring,
            values,
            numbers,
            products,
            sums,
        })
    }

    /// The number of the zero of the ring.
    pub fn zero(&self) -> u32
        ensures number { result < length self.now.values }
        ensures value { value_of (R.ring self.now.ring) self.now.values result ≡ (R.ring self.now.ring).zero }
    {
        let _ = &self.values;
        0
    }

    /// The value of a number.
    pub fn value(&self, id: u32) -> &R::Elem
        requires { id < length self.now.values }
        ensures value { result.now ≡ value_of (R.ring self.now.ring) self.now.values id }
        ensures member { IsTrue ((R.ring self.now.ring).member result.now) }
    {
        &self.values[id as usize]
    }
}

/// The number of a value that was found by what it is spread to, where it is that value.
fn is_kept<R: Spread>(ring: &R, values: &[R::Elem], id: u32, x: &R::Elem) -> bool
    requires members { All (λ v. IsTrue ((R.ring ring.now).member v)) values.now }
    requires member { IsTrue ((R.ring ring.now).member x.now) }
    ensures { IsTrue result → (id < length values.now) × (x.now ≡ value_of (R.ring ring.now) values.now id) }
{
    match values.get(id as usize) {
        Some(v) => ring.same(x, v),
        None => false,
    }
}

impl<'a, R: Spread> Kept<'a, R> {
    /// The number of an equal value that is kept, if it is found.
    fn find(&self, spread: u64, x: &R::Elem) -> Option<u32>
        requires { IsTrue ((R.ring self.now.ring).member x.now) }
        ensures { IfSome result (λ id. (id < length self.now.values)
            × (x.now ≡ value_of (R.ring self.now.ring) self.now.values id)) }
    {
        let id = *self.numbers.get(&spread)?;
        if is_kept(self.ring, self.values.as_slice(), id, x) {
            Some(id)
        } else {
            None
        }
    }

    /// Keeps a value as the next number.
    fn push(&mut self, spread: u64, x: R::Elem) -> Result<u32, AllocError>
        requires { IsTrue ((R.ring self.old.ring).member x) }
        ensures ring { self.new.ring ≡ self.old.ring }
        ensures grows { Grows self.old.values self.new.values }
        ensures value { IfOk result (λ id. (id < length self.new.values)
            × (x ≡ value_of (R.ring self.old.ring) self.new.values id)) }
    {
        let Ok(id) = u32::try_from(self.values.len()) else {
            return Err(AllocError);
        };
        self.values.push(x)?;
        self.numbers.insert(spread, id)?;
        Ok(id)
    }

    /// The number of a member of the ring, which is kept from now on.
    ///
    /// Kept numbers keep their values, also for want of memory. There is none also where 2^32 values are kept.
    pub fn number_of(&mut self, x: R::Elem) -> Result<u32, AllocError>
        requires { IsTrue ((R.ring self.old.ring).member x) }
        ensures ring { self.new.ring ≡ self.old.ring }
        ensures grows { Grows self.old.values self.new.values }
        ensures value { IfOk result (λ id. (id < length self.new.values)
            × (x ≡ value_of (R.ring self.old.ring) self.new.values id)) }
    {
        let spread = self.ring.spread(&x);
        if let Some(id) = self.find(spread, &x) {
            return Ok(id);
        }
        self.push(spread, x)
    }
}

impl<'a, R: Spread> Kept<'a, R> {
    /// The number of what a call of the ring answered.
    fn answer(
        &mut self,
        found: Result<R::Elem, Overflow>,
    ) -> Result<Result<u32, Overflow>, AllocError>
        requires { IfOk found (λ z. IsTrue ((R.ring self.old.ring).member z)) }
        ensures ring { self.new.ring ≡ self.old.ring }
        ensures grows { Grows self.old.values self.new.values }
        ensures value { IfOk result (λ answer. IsNumberOf (R.ring self.old.ring) self.new.values answer found) }
    {
        match found {
            Ok(x) => Ok(Ok(self.number_of(x)?)),
            Err(e) => Ok(Err(e)),
        }
    }

    /// The product of two kept values.
    fn multiplied(&self, x: u32, y: u32) -> Result<R::Elem, Overflow>
        requires left { x < length self.now.values }
        requires right { y < length self.now.values }
        ensures value { let ring = R.ring self.now.ring in
            Gives result (product_at ring (value_of ring self.now.values x) (value_of ring self.now.values y)) }
        ensures member { IfOk result (λ z. IsTrue ((R.ring self.now.ring).member z)) }
    {
        self.ring
            .mul(&self.values[x as usize], &self.values[y as usize])
    }

    /// The numbered product of two kept values, where it is remembered.
    fn known_product(&self, x: u32, y: u32) -> Option<Result<u32, Overflow>>
        ensures { let ring = R.ring self.now.ring in
            IfSome result (λ answer. IsMemo ring (product_at ring) self.now.values
            (record { left = x; right = y; answer = answer })) }
    {
        find(self.products.as_slice(), x, y)
    }

    /// Remembers a numbered product.
    fn remember_product(&mut self, memo: Memo)
        requires { let ring = R.ring self.old.ring in IsMemo ring (product_at ring) self.old.values memo }
        ensures { self.new ≡ self.old }
    {
        put(&mut self.products, memo);
    }

    /// The number of the product of two kept values, or too large.
    ///
    /// Kept numbers keep their values, also for want of memory. Takes memory only where the product wasn't
    /// formed before or is forgotten.
    #[tactic(auto, using(crate::proofs::MemoLemmas::memo_grown, crate::proofs::MemoLemmas::numbered, crate::proofs::MemoLemmas::told_number))]
    pub fn product(&mut self, x: u32, y: u32) -> Result<u32, Stop>
        requires left { x < length self.old.values }
        requires right { y < length self.old.values }
        ensures ring { self.new.ring ≡ self.old.ring }
        ensures grows { Grows self.old.values self.new.values }
        ensures value { let ring = R.ring self.old.ring in
            Told ring self.new.values result
            (product_at ring (value_of ring self.old.values x) (value_of ring self.old.values y)) }
    {
        if let Some(answer) = self.known_product(x, y) {
            return told(answer);
        }
        let found = self.multiplied(x, y);
        let answer = self.answer(found)?;
        self.remember_product(Memo {
            left: x,
            right: y,
            answer,
        });
        told(answer)
    }

    /// The sum of two kept values.
    fn added(&self, x: u32, y: u32) -> Result<R::Elem, Overflow>
        requires left { x < length self.now.values }
        requires right { y < length self.now.values }
        ensures value { let ring = R.ring self.now.ring in
            Gives result (sum_at ring (value_of ring self.now.values x) (value_of ring self.now.values y)) }
        ensures member { IfOk result (λ z. IsTrue ((R.ring self.now.ring).member z)) }
    {
        self.ring
            .add(&self.values[x as usize], &self.values[y as usize])
    }

    /// The numbered sum of two kept values, where it is remembered.
    fn known_sum(&self, x: u32, y: u32) -> Option<Result<u32, Overflow>>
        ensures { let ring = R.ring self.now.ring in
            IfSome result (λ answer. IsMemo ring (sum_at ring) self.now.values
            (record { left = x; right = y; answer = answer })) }
    {
        find(self.sums.as_slice(), x, y)
    }

    /// Remembers a numbered sum.
    fn remember_sum(&mut self, memo: Memo)
        requires { let ring = R.ring self.old.ring in IsMemo ring (sum_at ring) self.old.values memo }
        ensures { self.new ≡ self.old }
    {
        put(&mut self.sums, memo);
    }

    /// The number of the sum of two kept values, or too large.
    ///
    /// Kept numbers keep their values, also for want of memory. Takes memory only where the sum wasn't
    /// formed before or is forgotten.
    #[tactic(auto, using(crate::proofs::MemoLemmas::memo_grown, crate::proofs::MemoLemmas::numbered, crate::proofs::MemoLemmas::told_number))]
    pub fn sum(&mut self, x: u32, y: u32) -> Result<u32, Stop>
        requires left { x < length self.old.values }
        requires right { y < length self.old.values }
        ensures ring { self.new.ring ≡ self.old.ring }
        ensures grows { Grows self.old.values self.new.values }
        ensures value { let ring = R.ring self.old.ring in
            Told ring self.new.values result
            (sum_at ring (value_of ring self.old.values x) (value_of ring self.old.values y)) }
    {
        if let Some(answer) = self.known_sum(x, y) {
            return told(answer);
        }
        let found = self.added(x, y);
        let answer = self.answer(found)?;
        self.remember_sum(Memo {
            left: x,
            right: y,
            answer,
        });
        told(answer)
    }

    /// Whether two kept values are equal.
    pub fn same(&self, x: u32, y: u32) -> bool
        requires left { x < length self.now.values }
        requires right { y < length self.now.values }
        ensures { let ring = R.ring self.now.ring in
            IsTrue result ↔ (value_of ring self.now.values x ≡ value_of ring self.now.values y) }
    {
        if x == y {
            return true;
        }
        self.ring
            .same(&self.values[x as usize], &self.values[y as usize])
    }
}
