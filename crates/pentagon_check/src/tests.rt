ghost use Rattle.std.specs.Prelude.{◌≡◌, IfOk};

use crate::check;
use fusion_rules::{RuleRefused, Rules};
use ring_laws::{Int, Whole};
use std::alloc::Global;
use std::test::Fail;
use symbol_table::{Draft, FIndex, Kind, Law};

/// F(g,g,g,g;1,1).
const AT: FIndex = FIndex {
    a: 1,
    b: 1,
    c: 1,
    d: 1,
    e: 0,
    f: 0,
};

// The group of order two: g times g is the unit.
fn two() -> Result<Rules, RuleRefused>
    ensures { IfOk result (λ r. r.count ≡ 2) }
{
    let mut rules = Rules::new(2);
    rules.allow(1, 1, 0)?;
    Ok(rules)
}

fn drafted(alloc: Global, f: i128) -> Result<Draft<Whole>, Fail> {
    let mut draft = Draft::new(alloc, Whole, two()?);
    draft.set_f(AT, Int::new(f).ok_or("too large")?)?;
    Ok(draft)
}

// One is F(g,g,g,g;1,1) of the toric code's group, minus one that of the semion.
#[test]
fn holds(rt: HostRuntime) -> Result<(), Fail> {
    check(&Draft::new(rt.alloc(), Whole, Rules::new(1)))?;
    check(&drafted(rt.alloc(), 1)?)?;
    check(&drafted(rt.alloc(), -1)?)?;
    Ok(())
}

// At g g g g 1 g 1 1 g the left side is 1 and the right one F(g,g,g,g;1,1) twice.
#[test]
fn first_event(rt: HostRuntime) -> Result<(), Fail> {
    for (f, kind) in [(2, Kind::Fails), (1 << 64, Kind::Overflow)] {
        let Err(event) = check(&drafted(rt.alloc(), f)?) else {
            return Err(Fail::from("no event"));
        };
        assert_eq!(rt; event.kind, kind);
        assert_eq!(rt; event.law, Law::Pentagon);
        assert_eq!(rt;
            event.index.as_slice(),
            [1, 1, 1, 1, 0, 1, 0, 0, 1].as_slice()
        );
    }
    Ok(())
}
