ghost use Rattle.std.specs.Prelude.{◌≡◌, IfOk};

use crate::{GateFault, admit};
use fusion_rules::{RuleRefused, Rules, RulesFault};
use ring_laws::{Int, Whole};
use std::alloc::Global;
use std::test::Fail;
use symbol_table::{Draft, FIndex, Kind, Law, VIndex};

/// F(g,g,g,g;1,1).
const AT: FIndex = FIndex {
    a: 1,
    b: 1,
    c: 1,
    d: 1,
    e: 0,
    f: 0,
};

// The group of order two: g times g is the unit.
fn two() -> Result<Rules, RuleRefused>
    ensures { IfOk result (λ r. r.count ≡ 2) }
{
    let mut rules = Rules::new(2);
    rules.allow(1, 1, 0)?;
    Ok(rules)
}

// F(g,g,g,g;1,1) and R(g,g,1).
fn drafted(alloc: Global, f: i128, r: i128) -> Result<Draft<Whole>, Fail>
    ensures { IfOk result (λ d. (d.version ≡ 1) × (d.rules.count ≡ 2)) }
{
    let mut draft = Draft::new(alloc, Whole, two()?);
    draft.set_f(AT, Int::new(f).ok_or("too large")?)?;
    draft.set_r(VIndex { a: 1, b: 1, c: 0 }, Int::new(r).ok_or("too large")?)?;
    Ok(draft)
}

// Bosons and fermions: R(g,g,1) is 1 or -1.
#[test]
fn admitted(rt: HostRuntime) -> Result<(), Fail> {
    for r in [1, -1] {
        let Ok(category) = admit(rt.alloc(), drafted(rt.alloc(), 1, r)?) else {
            return Err(Fail::from("not admitted"));
        };
        assert_eq!(rt; category.rules().count(), 2);
        assert!(rt; category.rules().check().is_ok());
    }
    Ok(())
}

#[test]
fn rules_first(rt: HostRuntime) -> Result<(), Fail> {
    let draft = Draft::new(rt.alloc(), Whole, Rules::new(2));
    let Err(GateFault::Rules(fault)) = admit(rt.alloc(), draft) else {
        return Err(Fail::from("no fault of the rules"));
    };
    assert_eq!(rt; fault, RulesFault::NoSingleDual(1));
    Ok(())
}

// The semion's F with a real R fails at the hexagon, with a larger R at the norm, and a large F at its inverse.
#[test]
fn first_law(rt: HostRuntime) -> Result<(), Fail> {
    for (f, r, kind, law) in [
        (-1, 1, Kind::Fails, Law::HexagonOne),
        (-1, 2, Kind::Fails, Law::NormR),
        (2, 1, Kind::Fails, Law::InverseF),
        (1 << 64, 1, Kind::Overflow, Law::InverseF),
    ] {
        let Err(GateFault::Law(event)) = admit(rt.alloc(), drafted(rt.alloc(), f, r)?) else {
            return Err(Fail::from("no event"));
        };
        assert_eq!(rt; event.kind, kind);
        assert_eq!(rt; event.law, law);
    }
    Ok(())
}

// The boson of version 2, with the twists and the loop values of 1 and g.
fn marked(alloc: Global, twists: (i128, i128), loops: (i128, i128)) -> Result<Draft<Whole>, Fail> {
    let mut draft = drafted(alloc, 1, 1)?;
    draft.second();
    draft.set_twist(0, Int::new(twists.0).ok_or("too large")?)?;
    draft.set_twist(1, Int::new(twists.1).ok_or("too large")?)?;
    draft.set_loop(0, Int::new(loops.0).ok_or("too large")?)?;
    draft.set_loop(1, Int::new(loops.1).ok_or("too large")?)?;
    Ok(draft)
}

// The square of each mark of g is 1.
#[test]
fn second_version_admitted(rt: HostRuntime) -> Result<(), Fail> {
    for (twist, value) in [(1, 1), (-1, 1), (1, -1)] {
        let draft = marked(rt.alloc(), (1, twist), (1, value))?;
        assert!(rt; admit(rt.alloc(), draft).is_ok());
    }
    Ok(())
}

#[test]
fn first_law_of_marks(rt: HostRuntime) -> Result<(), Fail> {
    for (twists, loops, kind, law) in [
        ((2, 1), (2, 1), Kind::Fails, Law::UnitTwist),
        ((1, 2), (2, 1), Kind::Fails, Law::Twist),
        ((1, 1 << 64), (1, 1), Kind::Overflow, Law::Twist),
        ((1, 1), (2, 2), Kind::Fails, Law::UnitLoop),
        ((1, 1), (1, 2), Kind::Fails, Law::LoopSum),
    ] {
        let draft = marked(rt.alloc(), twists, loops)?;
        let Err(GateFault::Law(event)) = admit(rt.alloc(), draft) else {
            return Err(Fail::from("no event"));
        };
        assert_eq!(rt; event.kind, kind);
        assert_eq!(rt; event.law, law);
    }
    Ok(())
}
