//! What exchanges and projections multiply by.

ghost use Rattle.std.specs.Prelude.{◌≡◌, ◌<◌, IfOk, true};
ghost use Rattle.fusion_rules.specs.Fusion.{fuses};
ghost use Rattle.ring_laws.specs.Stated.{Gives};
ghost use Rattle.symbol_table.specs.Category.{symbols};
ghost use Rattle.comb_laws.specs.Operators.{exchange_by};
ghost use Rattle.comb_run.specs.Evaluated.{braid_step, braid_kernel_at, charge_kernel_at};
ghost use Rattle.comb_run.specs.Operations.{kernel_at, charge_below, IsPlace};
ghost use Rattle.symbol_table.specs.Draft.{IsMember};

use comb_laws::Operator;
use program_text::Sign;
use ring_laws::{Overflow, StarRing, add_product3, sum_over_labels};
use symbol_table::{Category, FIndex, VIndex};

/// The labels around a gap and at it: `p` before its strands `a` and `b`, `y` after them, and between them `t` before
/// an operator and `u` after it.
#[derive(Clone, Copy, Debug, Drop)]
pub(crate) struct Place {
    pub(crate) p: u8,
    pub(crate) a: u8,
    pub(crate) b: u8,
    pub(crate) y: u8,
    pub(crate) t: u8,
    pub(crate) u: u8,
}

/// R at a vertex for a positive exchange, S for a negative one.
fn exchange<R: StarRing>(category: &Category<R>, sign: Sign, at: &VIndex) -> R::Elem
    requires { fuses category.now.rules at.now.a at.now.b at.now.c ≡ true }
    ensures value { result ≡ exchange_by (symbols R.StarRing category.now) sign at.now.a at.now.b at.now.c }
    ensures member { IsMember R.StarRing category.now result }
{
    match sign {
        Sign::Plus => category.r(at),
        Sign::Minus => category.s(at),
    }
}

/// The term of the charge q in a braid's kernel, added to a sum where F and H are admissible.
fn braid_term<R: StarRing>(
    category: &Category<R>,
    sign: Sign,
    place: &Place,
    q: u8,
    sum: R::Elem,
) -> Result<R::Elem, Overflow>
    requires labels { IsPlace category.now.rules.count place.now }
    requires q { q < category.now.rules.count }
    requires sum { IsMember R.StarRing category.now sum }
    ensures value { Gives result (braid_step (symbols R.StarRing category.now) sign
        place.now.p place.now.a place.now.b place.now.y place.now.t place.now.u q sum) }
    ensures member { IfOk result (λ z. IsMember R.StarRing category.now z) }
{
    let Place { p, a, b, y, t, u } = *place;
    let before = FIndex {
        a: p,
        b: a,
        c: b,
        d: y,
        e: t,
        f: q,
    };
    let after = FIndex {
        a: p,
        b,
        c: a,
        d: y,
        e: u,
        f: q,
    };
    if !before.is_admissible(category.rules()) {
        return Ok(sum);
    }
    if !after.is_admissible(category.rules()) {
        return Ok(sum);
    }
    let f = category.f(&before);
    let exchange = exchange(category, sign, &VIndex { a, b, c: q });
    let h = category.h(&after);
    add_product3(category.ring(), &sum, &f, &exchange, &h)
}

/// A braid's kernel, the sum over the charges of its two strands.
fn braid_kernel<R: StarRing>(
    category: &Category<R>,
    sign: Sign,
    place: &Place,
) -> Result<R::Elem, Overflow>
    requires { IsPlace category.now.rules.count place.now }
    ensures value { Gives result (braid_kernel_at (symbols R.StarRing category.now) sign
        place.now.p place.now.a place.now.b place.now.y place.now.t place.now.u) }
    ensures member { IfOk result (λ z. IsMember R.StarRing category.now z) }
{
    sum_over_labels(category.ring(), category.rules().count(), |q, sum| {
        braid_term(category, sign, place, q, sum)
    })
}

/// The kernel of the projection on a charge.
fn charge_kernel<R: StarRing>(
    category: &Category<R>,
    q: u8,
    place: &Place,
) -> Result<R::Elem, Overflow>
    requires labels { IsPlace category.now.rules.count place.now }
    requires q { q < category.now.rules.count }
    ensures value { Gives result (charge_kernel_at (symbols R.StarRing category.now) q
        place.now.p place.now.a place.now.b place.now.y place.now.t place.now.u) }
    ensures member { IfOk result (λ z. IsMember R.StarRing category.now z) }
{
    let Place { p, a, b, y, t, u } = *place;
    let over = FIndex {
        a: p,
        b: a,
        c: b,
        d: y,
        e: t,
        f: q,
    };
    let back = FIndex {
        a: p,
        b: a,
        c: b,
        d: y,
        e: u,
        f: q,
    };
    if !over.is_admissible(category.rules()) {
        return Ok(category.ring().zero());
    }
    if !back.is_admissible(category.rules()) {
        return Ok(category.ring().zero());
    }
    let f = category.f(&over);
    let h = category.h(&back);
    category.ring().mul(&f, &h)
}

/// The kernel of an operator from the label `t` between the strands to the label `u`.
pub(crate) fn kernel<R: StarRing>(
    category: &Category<R>,
    operator: Operator,
    place: &Place,
) -> Result<R::Elem, Overflow>
    requires labels { IsPlace category.now.rules.count place.now }
    requires charge { charge_below category.now.rules.count operator }
    ensures value { Gives result (kernel_at (symbols R.StarRing category.now) operator
        place.now.p place.now.a place.now.b place.now.y place.now.t place.now.u) }
    ensures member { IfOk result (λ z. IsMember R.StarRing category.now z) }
{
    match operator {
        Operator::Exchange(sign) => braid_kernel(category, sign, place),
        Operator::Project(q) => charge_kernel(category, q, place),
    }
}
