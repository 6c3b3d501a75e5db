ghost use Rattle.std.specs.Prelude.{◌≡◌, IfOk};

use crate::check;
use derive_symbols::derive_draft;
use fusion_rules::{RuleRefused, Rules};
use ring_laws::{Int, Whole};
use std::alloc::Global;
use std::test::Fail;
use symbol_table::{Draft, Kind, Law, VIndex};

const AT: VIndex = VIndex { a: 1, b: 1, c: 0 };

// The group of order two: g times g is the unit.
fn two() -> Result<Rules, RuleRefused>
    ensures { IfOk result (λ r. r.count ≡ 2) }
{
    let mut rules = Rules::new(2);
    rules.allow(1, 1, 0)?;
    Ok(rules)
}

// R(g,g,1) and the weight w(g,g,1) are given; F and the inverse weights are 1.
fn drafted(alloc: Global, r: i128, w: i128) -> Result<Draft<Whole>, Fail> {
    let mut draft = Draft::new(alloc, Whole, two()?);
    draft.set_r(AT, Int::new(r).ok_or("too large")?)?;
    draft.set_w(AT, Int::new(w).ok_or("too large")?)?;
    Ok(draft)
}

// The fermion has R(g,g,1) = -1.
#[test]
fn hold(rt: HostRuntime) -> Result<(), Fail> {
    for r in [1, -1] {
        let draft = drafted(rt.alloc(), r, 1)?;
        let derived = derive_draft(rt.alloc(), &draft)?;
        check(&draft, &derived)?;
    }
    Ok(())
}

// At g g g g 1 1 the left side is the square of R(g,g,1) or of S(g,g,1) = R(g,g,1) w(g,g,1), the right
// one is 1.
#[test]
fn first_event(rt: HostRuntime) -> Result<(), Fail> {
    for (r, w, kind, law) in [
        (2, 1, Kind::Fails, Law::HexagonOne),
        (1 << 64, 1, Kind::Overflow, Law::HexagonOne),
        (1, 2, Kind::Fails, Law::HexagonTwo),
        (-1, 1 << 64, Kind::Overflow, Law::HexagonTwo),
    ] {
        let draft = drafted(rt.alloc(), r, w)?;
        let derived = derive_draft(rt.alloc(), &draft)?;
        let Err(event) = check(&draft, &derived) else {
            return Err(Fail::from("no event"));
        };
        assert_eq!(rt; event.kind, kind);
        assert_eq!(rt; event.law, law);
        assert_eq!(rt; event.index.as_slice(), [1, 1, 1, 1, 0, 0].as_slice());
    }
    Ok(())
}
