//! The laws of twists and loop values.

ghost use Rattle.std.specs.Prelude.{◌≡◌, ◌<◌, All, IfOk, IsOk, IsTrue, OnOk, length};
ghost use Rattle.ring_laws.specs.Stated.{Gives, product_at};
ghost use Rattle.fusion_rules.specs.Check.{RulesPass};
ghost use Rattle.fusion_rules.specs.First.{Answers};
ghost use Rattle.fusion_rules.specs.Fusion.{fuses};
ghost use Rattle.symbol_table.specs.Category.{symbols};
ghost use Rattle.symbol_table.specs.Derived.{HoldsSymbols};
ghost use Rattle.symbol_table.specs.Draft.{given};
ghost use Rattle.symbol_table.specs.Laws.{at1, at2, at3, mark_laws};
ghost use Rattle.law_events.specs.Sides.{first_in, loop_f, loop_f_left, loop_sum, loop_sum_right, loop_sum_step, product4_at, twist, twist_left, unit_mark};
ghost use Rattle.law_events.specs.Verdicts.{AllFit, AllHold};
ghost use Rattle.category_gate.specs.Marks.{loop_over, loop_product};

use law_events::{check, compare};
use ring_laws::{Overflow, StarRing, product3, sum_over_labels};
use symbol_table::{Derived, Draft, Event, Kind, Law};

/// The twist of the unit is 1, at the index a.
fn unit_twist<R: StarRing>(draft: &Draft<R>, at: &[u8]) -> Option<Kind>
    requires long { length at.now ≡ 1 }
    requires labels { All (λ t. t < draft.now.rules.count) at.now }
    ensures { result ≡ at1 (unit_mark (symbols R.StarRing draft.now) (symbols R.StarRing draft.now).twist) at.now }
{
    let &[a] = at else { unreachable!() };
    if a != 0 {
        return None;
    }
    compare(draft.ring(), &draft.twist(a), &draft.ring().one())
}

/// The loop value of the unit is 1, at the index a.
fn unit_loop<R: StarRing>(draft: &Draft<R>, at: &[u8]) -> Option<Kind>
    requires long { length at.now ≡ 1 }
    requires labels { All (λ t. t < draft.now.rules.count) at.now }
    ensures { result ≡ at1 (unit_mark (symbols R.StarRing draft.now) (symbols R.StarRing draft.now).loop_value) at.now }
{
    let &[a] = at else { unreachable!() };
    if a != 0 {
        return None;
    }
    compare(draft.ring(), &draft.loop_value(a), &draft.ring().one())
}

/// The product of four members, from the left.
fn product4<R: StarRing>(
    ring: &R,
    x: &R::Elem,
    y: &R::Elem,
    z: &R::Elem,
    u: &R::Elem,
) -> Result<R::Elem, Overflow>
    requires x { IsTrue ((R.ring ring.now).member x.now) }
    requires y { IsTrue ((R.ring ring.now).member y.now) }
    requires z { IsTrue ((R.ring ring.now).member z.now) }
    requires u { IsTrue ((R.ring ring.now).member u.now) }
    ensures value { Gives result (product4_at (R.ring ring.now) x.now y.now z.now u.now) }
    ensures member { IfOk result (λ v. IsTrue ((R.ring ring.now).member v)) }
{
    let three = product3(ring, x, y, z)?;
    ring.mul(&three, u)
}

/// R(a,b,c) R(b,a,c) theta_a theta_b, at the index a b c.
fn twist_left<R: StarRing>(draft: &Draft<R>, at: &[u8]) -> Result<R::Elem, Overflow>
    requires long { length at.now ≡ 3 }
    requires labels { All (λ t. t < draft.now.rules.count) at.now }
    ensures value { Gives result (at3 (twist_left (symbols R.StarRing draft.now)) at.now) }
    ensures member { IfOk result (λ v. IsTrue ((R.ring draft.now.ring).member v)) }
{
    let &[a, b, c] = at else { unreachable!() };
    let over = draft.r_at(a, b, c);
    let back = draft.r_at(b, a, c);
    product4(draft.ring(), &over, &back, &draft.twist(a), &draft.twist(b))
}

/// R(a,b,c) R(b,a,c) theta_a theta_b is theta_c, at the index a b c.
fn twist<R: StarRing>(draft: &Draft<R>, at: &[u8]) -> Option<Kind>
    requires long { length at.now ≡ 3 }
    requires labels { All (λ t. t < draft.now.rules.count) at.now }
    ensures { result ≡ at3 (twist (symbols R.StarRing draft.now)) at.now }
{
    let Ok(left) = twist_left(draft, at) else {
        return Some(Kind::Overflow);
    };
    let &[_, _, c] = at else { unreachable!() };
    compare(draft.ring(), &left, &draft.twist(c))
}

/// d_a d_b, at the index a b.
fn loop_product<R: StarRing>(draft: &Draft<R>, at: &[u8]) -> Result<R::Elem, Overflow>
    requires long { length at.now ≡ 2 }
    requires labels { All (λ t. t < draft.now.rules.count) at.now }
    ensures value { Gives result (at2 (loop_product (symbols R.StarRing draft.now)) at.now) }
    ensures member { IfOk result (λ v. IsTrue ((R.ring draft.now.ring).member v)) }
{
    let &[a, b] = at else { unreachable!() };
    draft.ring().mul(&draft.loop_value(a), &draft.loop_value(b))
}

/// The sum with d_c at the index a b, or the sum alone where a and b don't make c.
fn add_loop<R: StarRing>(
    draft: &Draft<R>,
    at: &[u8],
    c: u8,
    sum: R::Elem,
) -> Result<R::Elem, Overflow>
    requires long { length at.now ≡ 2 }
    requires labels { All (λ t. t < draft.now.rules.count) at.now }
    requires label { c < draft.now.rules.count }
    requires sum { IsTrue ((R.ring draft.now.ring).member sum) }
    ensures value { Gives result (at2 (loop_sum_step (symbols R.StarRing draft.now)) at.now c sum) }
    ensures member { IfOk result (λ v. IsTrue ((R.ring draft.now.ring).member v)) }
{
    let &[a, b] = at else { unreachable!() };
    if !draft.rules().allows(a, b, c) {
        return Ok(sum);
    }
    draft.ring().add(&sum, &draft.loop_value(c))
}

/// The sum of the loop values of the labels that a and b make, at the index a b.
fn loop_total<R: StarRing>(draft: &Draft<R>, at: &[u8]) -> Result<R::Elem, Overflow>
    requires long { length at.now ≡ 2 }
    requires labels { All (λ t. t < draft.now.rules.count) at.now }
    ensures value { Gives result (at2 (loop_sum_right (symbols R.StarRing draft.now)) at.now) }
    ensures member { IfOk result (λ v. IsTrue ((R.ring draft.now.ring).member v)) }
{
    sum_over_labels(draft.ring(), draft.rules().count(), |c, sum| {
        add_loop(draft, at, c, sum)
    })
}

/// The product of the loop values of a and b is the sum of those of the labels that they make, at the index a b.
fn loop_sum<R: StarRing>(draft: &Draft<R>, at: &[u8]) -> Option<Kind>
    requires long { length at.now ≡ 2 }
    requires labels { All (λ t. t < draft.now.rules.count) at.now }
    ensures { result ≡ at2 (loop_sum (symbols R.StarRing draft.now)) at.now }
{
    let Ok(product) = loop_product(draft, at) else {
        return Some(Kind::Overflow);
    };
    let Ok(total) = loop_total(draft, at) else {
        return Some(Kind::Overflow);
    };
    compare(draft.ring(), &product, &total)
}

/// d_a d_a F(a,b,a,a;1,1) H(a,b,a,a;1,1).
fn loop_over<R: StarRing>(
    draft: &Draft<R>,
    derived: &Derived<R>,
    a: u8,
    b: u8,
) -> Result<R::Elem, Overflow>
    requires first { a < draft.now.rules.count }
    requires second { b < draft.now.rules.count }
    requires holds { HoldsSymbols (R.ring draft.now.ring) (given draft.now) derived.now }
    ensures value { Gives result (loop_over (symbols R.StarRing draft.now) a b) }
    ensures member { IfOk result (λ v. IsTrue ((R.ring draft.now.ring).member v)) }
{
    let loop_value = draft.loop_value(a);
    let over = draft.f_at(a, b, a, a, 0, 0);
    let back = derived.h_at(draft, a, b, a, a, 0, 0);
    product4(draft.ring(), &loop_value, &loop_value, &over, &back)
}

/// d_a d_a F(a,a*,a,a;1,1) H(a,a*,a,a;1,1), at the index a.
fn loop_f_left<R: StarRing>(
    draft: &Draft<R>,
    derived: &Derived<R>,
    at: &[u8],
) -> Result<R::Elem, Overflow>
    requires long { length at.now ≡ 1 }
    requires labels { All (λ t. t < draft.now.rules.count) at.now }
    requires pass { RulesPass draft.now.rules.count (fuses draft.now.rules) }
    requires holds { HoldsSymbols (R.ring draft.now.ring) (given draft.now) derived.now }
    ensures value { Gives result (at1 (loop_f_left (symbols R.StarRing draft.now)) at.now) }
    ensures member { IfOk result (λ v. IsTrue ((R.ring draft.now.ring).member v)) }
{
    let &[a] = at else { unreachable!() };
    loop_over(draft, derived, a, draft.rules().dual(a))
}

/// The square of a loop value times F(a,a*,a,a;1,1) H(a,a*,a,a;1,1) is 1, at the index a.
fn loop_f<R: StarRing>(draft: &Draft<R>, derived: &Derived<R>, at: &[u8]) -> Option<Kind>
    requires long { length at.now ≡ 1 }
    requires labels { All (λ t. t < draft.now.rules.count) at.now }
    requires pass { RulesPass draft.now.rules.count (fuses draft.now.rules) }
    requires holds { HoldsSymbols (R.ring draft.now.ring) (given draft.now) derived.now }
    ensures { result ≡ at1 (loop_f (symbols R.StarRing draft.now)) at.now }
{
    let Ok(left) = loop_f_left(draft, derived, at) else {
        return Some(Kind::Overflow);
    };
    compare(draft.ring(), &left, &draft.ring().one())
}

/// The first event of the laws of twists and loop values.
fn check_each<R: StarRing>(draft: &Draft<R>, derived: &Derived<R>) -> Result<(), Event>
    requires pass { RulesPass draft.now.rules.count (fuses draft.now.rules) }
    requires holds { HoldsSymbols (R.ring draft.now.ring) (given draft.now) derived.now }
    ensures { Answers result (first_in (symbols R.StarRing draft.now) mark_laws) }
{
    check(draft, Law::UnitTwist, |at| unit_twist(draft, at))?;
    check(draft, Law::Twist, |at| twist(draft, at))?;
    check(draft, Law::UnitLoop, |at| unit_loop(draft, at))?;
    check(draft, Law::LoopSum, |at| loop_sum(draft, at))?;
    check(draft, Law::LoopF, |at| loop_f(draft, derived, at))
}

/// Whether the laws of twists and loop values hold at every index of a draft of version 2: else the first event, in
/// the order of the laws and of the labels.
///
/// `Fails` comes where all items fit and the equation is false, `Overflow` where an item doesn't fit. Asks that the
/// rules pass and that the derived values are those of the draft. Takes no memory.
pub fn check_marks<R: StarRing>(draft: &Draft<R>, derived: &Derived<R>) -> Result<(), Event>
    requires version { draft.now.version ≡ 2 }
    requires pass { RulesPass draft.now.rules.count (fuses draft.now.rules) }
    requires holds { HoldsSymbols (R.ring draft.now.ring) (given draft.now) derived.now }
    ensures event { Answers result (first_in (symbols R.StarRing draft.now) mark_laws) }
    ensures lawful { OnOk result (AllHold (symbols R.StarRing draft.now) mark_laws) }
    ensures complete { AllHold (symbols R.StarRing draft.now) mark_laws
        → AllFit (symbols R.StarRing draft.now) mark_laws → IsOk result }
{
    // Says that the values are of the ring.
    draft.f_is_of_ring();
    check_each(draft, derived)
}
