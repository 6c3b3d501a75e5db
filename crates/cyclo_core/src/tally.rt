//! Signed sums beside the sums of their terms' magnitudes.
ghost use Rattle.std.specs.Prelude.{◌≡◌, ◌+◌, ◌*◌, ◌-◌, ◌^◌, ◌≤◌, ◌↔◌, ◌+ℤ◌, ◌*ℤ◌, pos, unsigned_abs, IsOk, IfOk};

use ring_laws::Overflow;

/// A sum, and the sum of its terms' magnitudes, which is at most 2^127 - 1.
#[derive(Clone, Copy, Debug)]
pub struct Tally {
    pub value: i128,
    pub size: u128,
    ghost bounded: { unsigned_abs value ≤ size },
    ghost fits: { size ≤ 2 ^ 127 - 1 },
}

impl Tally {
    /// The sum of no terms.
    pub fn new() -> Self
        ensures value { result.value ≡ pos 0 }
        ensures size { result.size ≡ 0 }
    {
        Tally { value: 0, size: 0 }
    }

    /// The sum.
    pub fn total(self) -> i128
        ensures value { result ≡ self.value }
        ensures small { unsigned_abs result ≤ 2 ^ 127 - 1 }
    {
        self.value
    }
}

/// The product of two, where its magnitude is at most 2^127 - 1.
pub fn times(x: &i128, y: &i128) -> Result<i128, Overflow>
    ensures fits { (unsigned_abs x.now * unsigned_abs y.now ≤ 2 ^ 127 - 1) ↔ IsOk result }
    ensures value { IfOk result (λ z. z ≡ x.now *ℤ y.now) }
    ensures size { IfOk result (λ z. unsigned_abs z ≡ unsigned_abs x.now * unsigned_abs y.now) }
{
    let (x, y) = (*x, *y);
    match x.unsigned_abs().checked_mul(y.unsigned_abs()) {
        Some(size) if size <= i128::MAX as u128 => Ok(x * y),
        _ => Err(Overflow),
    }
}

/// One term more.
fn add(tally: Tally, term: &i128) -> Result<Tally, Overflow>
    ensures fits { (tally.size + unsigned_abs term.now ≤ 2 ^ 127 - 1) ↔ IsOk result }
    ensures value { IfOk result (λ t. t.value ≡ tally.value +ℤ term.now) }
    ensures size { IfOk result (λ t. t.size ≡ tally.size + unsigned_abs term.now) }
{
    let term = *term;
    let size = tally.size + term.unsigned_abs();
    if size > i128::MAX as u128 {
        return Err(Overflow);
    }
    Ok(Tally {
        value: tally.value + term,
        size,
    })
}

/// The product of two more.
pub fn add_product(tally: Tally, x: &i128, y: &i128) -> Result<Tally, Overflow>
    ensures fits { (tally.size + unsigned_abs x.now * unsigned_abs y.now ≤ 2 ^ 127 - 1) ↔ IsOk result }
    ensures value { IfOk result (λ t. t.value ≡ tally.value +ℤ (x.now *ℤ y.now)) }
    ensures size { IfOk result (λ t. t.size ≡ tally.size + unsigned_abs x.now * unsigned_abs y.now) }
{
    if *y == 1 {
        return add(tally, x);
    }
    let term = times(x, y)?;
    add(tally, &term)
}

/// The product of three more.
pub fn add_term(tally: Tally, x: &i128, y: &i128, r: &i128) -> Result<Tally, Overflow>
    ensures fits { (tally.size + unsigned_abs x.now * unsigned_abs y.now * unsigned_abs r.now ≤ 2 ^ 127 - 1) ↔ IsOk result }
    ensures value { IfOk result (λ t. t.value ≡ tally.value +ℤ ((x.now *ℤ y.now) *ℤ r.now)) }
    ensures size { IfOk result (λ t. t.size ≡ tally.size + unsigned_abs x.now * unsigned_abs y.now * unsigned_abs r.now) }
{
    if *x == 0 || *r == 0 {
        return Ok(tally);
    }
    let product = times(x, y)?;
    add_product(tally, &product, r)
}
