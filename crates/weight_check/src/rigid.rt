//! The law that no F(a,a*,a,a;1,1) is 0, with a* the dual of a.

ghost use Rattle.std.specs.Prelude.{◌≡◌, ◌<◌, All, length};
ghost use Rattle.fusion_rules.specs.Fusion.{fuses};
ghost use Rattle.fusion_rules.specs.Check.{RulesPass};
ghost use Rattle.fusion_rules.specs.First.{Answers};
ghost use Rattle.symbol_table.specs.Category.{symbols};
ghost use Rattle.symbol_table.specs.Laws.{at1};
ghost use Rattle.law_events.specs.Sides.{first_of, rigid};

use law_events::check;
use ring_laws::{StarRing, is_zero};
use symbol_table::{Draft, Event, Kind, Law};

/// F(a,a*,a,a;1,1) isn't 0, at the index a.
fn rigid<R: StarRing>(draft: &Draft<R>, at: &[u8]) -> Option<Kind>
    requires long { length at.now ≡ 1 }
    requires labels { All (λ t. t < draft.now.rules.count) at.now }
    requires pass { RulesPass draft.now.rules.count (fuses draft.now.rules) }
    ensures { result ≡ at1 (rigid (symbols R.StarRing draft.now)) at.now }
{
    let &[a] = at else { unreachable!() };
    let dual = draft.rules().dual(a);
    if is_zero(draft.ring(), &draft.f_at(a, dual, a, a, 0, 0)) {
        Some(Kind::Fails)
    } else {
        None
    }
}

/// Whether no F(a,a*,a,a;1,1) is 0; else the event of the first label where it is.
pub(crate) fn check_rigid<R: StarRing>(draft: &Draft<R>) -> Result<(), Event>
    requires { RulesPass draft.now.rules.count (fuses draft.now.rules) }
    ensures { Answers result (first_of (symbols R.StarRing draft.now) Law.Rigid) }
{
    check(draft, Law::Rigid, |at| rigid(draft, at))
}
