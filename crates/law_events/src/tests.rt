ghost use Rattle.std.specs.Prelude.{◌≡◌, ◌<◌, All, IfOk, length};
ghost use Rattle.symbol_table.specs.Category.{symbols};
ghost use Rattle.symbol_table.specs.Laws.{at3};
ghost use Rattle.law_events.specs.Sides.{unit_vertex};

use crate::{check, compare};
use fusion_rules::{RuleRefused, Rules};
use ring_laws::{Int, StarRing, Whole};
use std::alloc::Global;
use std::test::Fail;
use symbol_table::{Draft, Event, Kind, Law, VIndex};

fn unit_r<R: StarRing>(draft: &Draft<R>, at: &[u8]) -> Option<Kind>
    requires long { length at.now ≡ 3 }
    requires labels { All (λ t. t < draft.now.rules.count) at.now }
    ensures { result ≡ at3 (unit_vertex (symbols R.StarRing draft.now) (symbols R.StarRing draft.now).r) at.now }
{
    let &[a, b, c] = at else { unreachable!() };
    if a != 0 && b != 0 {
        return None;
    }
    compare(draft.ring(), &draft.r_at(a, b, c), &draft.ring().one())
}

// The group of order two: g times g is the unit.
fn two() -> Result<Rules, RuleRefused>
    ensures { IfOk result (λ r. r.count ≡ 2) }
{
    let mut rules = Rules::new(2);
    rules.allow(1, 1, 0)?;
    Ok(rules)
}

fn drafted(alloc: Global) -> Result<Draft<Whole>, Fail>
    ensures { IfOk result (λ d. d.rules.count ≡ 2) }
{
    Ok(Draft::new(alloc, Whole, two()?))
}

fn event<R: StarRing>(draft: &Draft<R>) -> Result<Event, Fail> {
    match check(draft, Law::UnitR, |at| unit_r(draft, at)) {
        Ok(()) => Err(Fail::from("no event")),
        Err(event) => Ok(event),
    }
}

// R(1,g,g) and R(g,1,g) are the two indices at which the law of R and the unit asks something but 1 1 1.
#[test]
fn first_of_two_events(rt: HostRuntime) -> Result<(), Fail> {
    let mut draft = drafted(rt.alloc())?;
    check(&draft, Law::UnitR, |at| unit_r(&draft, at))?;

    draft.set_r(VIndex { a: 1, b: 0, c: 1 }, Int::new(3).ok_or("too large")?)?;
    let late = event(&draft)?;
    assert_eq!(rt; (late.kind, late.law), (Kind::Fails, Law::UnitR));
    assert_eq!(rt; late.index.as_slice(), [1, 0, 1].as_slice());

    draft.set_r(VIndex { a: 0, b: 1, c: 1 }, Int::new(3).ok_or("too large")?)?;
    assert_eq!(rt; event(&draft)?.index.as_slice(), [0, 1, 1].as_slice());
    Ok(())
}
