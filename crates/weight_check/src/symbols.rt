//! The laws that read F, R, w and v alone.

ghost use Rattle.std.specs.Prelude.{◌≡◌, ◌<◌, All, length};
ghost use Rattle.fusion_rules.specs.First.{Answers};
ghost use Rattle.symbol_table.specs.Category.{symbols};
ghost use Rattle.symbol_table.specs.Laws.{at3, at6};
ghost use Rattle.law_events.specs.Sides.{first_in, inverse_w, norm_r, real_w, unit_f, unit_vertex};
ghost use Rattle.weight_check.specs.Order.{symbol_laws};

use crate::items::{are_inverse, is_one, is_real, takes_weight};
use law_events::check;
use ring_laws::StarRing;
use symbol_table::{Draft, Event, Kind, Law};

/// F is 1 where one of its first three labels is the unit.
fn unit_f<R: StarRing>(draft: &Draft<R>, at: &[u8]) -> Option<Kind>
    requires long { length at.now ≡ 6 }
    requires labels { All (λ t. t < draft.now.rules.count) at.now }
    ensures { result ≡ at6 (unit_f (symbols R.StarRing draft.now)) at.now }
{
    let &[a, b, c, d, e, f] = at else {
        unreachable!()
    };
    if a != 0 && b != 0 && c != 0 {
        return None;
    }
    is_one(draft.ring(), &draft.f_at(a, b, c, d, e, f))
}

/// R is 1 where one of its first two labels is the unit.
fn unit_r<R: StarRing>(draft: &Draft<R>, at: &[u8]) -> Option<Kind>
    requires long { length at.now ≡ 3 }
    requires labels { All (λ t. t < draft.now.rules.count) at.now }
    ensures { result ≡ at3 (unit_vertex (symbols R.StarRing draft.now)
        (symbols R.StarRing draft.now).r) at.now }
{
    let &[a, b, c] = at else { unreachable!() };
    if a != 0 && b != 0 {
        return None;
    }
    is_one(draft.ring(), &draft.r_at(a, b, c))
}

/// The weight w is 1 where one of its first two labels is the unit.
fn unit_w<R: StarRing>(draft: &Draft<R>, at: &[u8]) -> Option<Kind>
    requires long { length at.now ≡ 3 }
    requires labels { All (λ t. t < draft.now.rules.count) at.now }
    ensures { result ≡ at3 (unit_vertex (symbols R.StarRing draft.now)
        (symbols R.StarRing draft.now).w) at.now }
{
    let &[a, b, c] = at else { unreachable!() };
    if a != 0 && b != 0 {
        return None;
    }
    is_one(draft.ring(), &draft.w_at(a, b, c))
}

/// The weight w is its own conjugate.
fn real_w<R: StarRing>(draft: &Draft<R>, at: &[u8]) -> Option<Kind>
    requires long { length at.now ≡ 3 }
    requires labels { All (λ t. t < draft.now.rules.count) at.now }
    ensures { result ≡ at3 (real_w (symbols R.StarRing draft.now)) at.now }
{
    let &[a, b, c] = at else { unreachable!() };
    is_real(draft.ring(), &draft.w_at(a, b, c))
}

/// The weight v is the inverse of w.
fn inverse_w<R: StarRing>(draft: &Draft<R>, at: &[u8]) -> Option<Kind>
    requires long { length at.now ≡ 3 }
    requires labels { All (λ t. t < draft.now.rules.count) at.now }
    ensures { result ≡ at3 (inverse_w (symbols R.StarRing draft.now)) at.now }
{
    let &[a, b, c] = at else { unreachable!() };
    let w = draft.w_at(a, b, c);
    let v = draft.v_at(a, b, c);
    are_inverse(draft.ring(), &w, &v)
}

/// R takes the weight of the mirrored vertex to that of the vertex.
fn norm_r<R: StarRing>(draft: &Draft<R>, at: &[u8]) -> Option<Kind>
    requires long { length at.now ≡ 3 }
    requires labels { All (λ t. t < draft.now.rules.count) at.now }
    ensures { result ≡ at3 (norm_r (symbols R.StarRing draft.now)) at.now }
{
    let &[a, b, c] = at else { unreachable!() };
    let r = draft.r_at(a, b, c);
    let mirrored = draft.w_at(b, a, c);
    let own = draft.w_at(a, b, c);
    takes_weight(draft.ring(), &r, &mirrored, &own)
}

/// Whether a draft meets the laws of F, R, w and v; else the first event of the first that it doesn't meet.
pub(crate) fn check_symbols<R: StarRing>(draft: &Draft<R>) -> Result<(), Event>
    ensures { Answers result (first_in (symbols R.StarRing draft.now) symbol_laws) }
{
    check(draft, Law::UnitF, |at| unit_f(draft, at))?;
    check(draft, Law::UnitR, |at| unit_r(draft, at))?;
    check(draft, Law::UnitW, |at| unit_w(draft, at))?;
    check(draft, Law::RealW, |at| real_w(draft, at))?;
    check(draft, Law::InverseW, |at| inverse_w(draft, at))?;
    check(draft, Law::NormR, |at| norm_r(draft, at))
}
