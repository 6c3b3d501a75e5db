ghost use Rattle.std.specs.Prelude.{◌≡◌, IsTrue, Some};
ghost use Rattle.law_events.specs.Sides.{judged};

use ring_laws::StarRing;
use symbol_table::Kind;

/// What two sides of an equation, both with values, tell: `Fails` exactly where they differ.
pub fn compare<R: StarRing>(ring: &R, left: &R::Elem, right: &R::Elem) -> Option<Kind>
    requires left { IsTrue ((R.ring ring.now).member left.now) }
    requires right { IsTrue ((R.ring ring.now).member right.now) }
    ensures { result ≡ judged R.held (Some left.now) (Some right.now) }
{
    if ring.same(left, right) {
        None
    } else {
        Some(Kind::Fails)
    }
}
