ghost use Rattle.std.specs.Prelude.{◌≡◌, IfOk};
ghost use Rattle.symbol_table.specs.Draft.{given};
ghost use Rattle.symbol_table.specs.Derived.{HoldsSymbols};

use crate::{ShapeFault, check};
use derive_symbols::derive_draft;
use fusion_rules::{RuleRefused, Rules};
use ring_laws::{Int, StarRing, Whole};
use std::alloc::Global;
use std::test::Fail;
use symbol_table::{Derived, Draft, Event, FIndex, Kind, Law, VIndex};

const VERTEX: VIndex = VIndex { a: 1, b: 1, c: 0 };

/// F(g,g,g,g;1,1).
const SQUARE: FIndex = FIndex {
    a: 1,
    b: 1,
    c: 1,
    d: 1,
    e: 0,
    f: 0,
};

// The group of order two: g times g is the unit.
fn two() -> Result<Rules, RuleRefused>
    ensures { IfOk result (λ r. r.count ≡ 2) }
{
    let mut rules = Rules::new(2);
    rules.allow(1, 1, 0)?;
    Ok(rules)
}

// F(g,g,g,g;1,1), R(g,g,1) and the weight w(g,g,1) are given; all else is 1.
fn drafted(alloc: Global, f: i128, r: i128, w: i128) -> Result<Draft<Whole>, Fail> {
    let mut draft = Draft::new(alloc, Whole, two()?);
    draft.set_f(SQUARE, Int::new(f).ok_or("too large")?)?;
    draft.set_r(VERTEX, Int::new(r).ok_or("too large")?)?;
    draft.set_w(VERTEX, Int::new(w).ok_or("too large")?)?;
    Ok(draft)
}

/// The laws of shapes by their definition's plain program.
fn plain<R: StarRing>(draft: &Draft<R>, derived: &Derived<R>) -> Result<(), Event>
    requires { HoldsSymbols (R.ring draft.now.ring) (given draft.now) derived.now }
{
    pentagon_check::check(draft)?;
    hexagon_check::check(draft, derived)
}

fn is_same(x: &Event, y: &Event) -> bool {
    x.kind == y.kind && x.law == y.law && x.index.as_slice() == y.index.as_slice()
}

/// The event of two checks, which is the same.
fn agreed(plain: Result<(), Event>, kept: Result<(), ShapeFault>) -> Result<Option<Event>, Fail> {
    match (plain, kept) {
        (Ok(()), Ok(())) => Ok(None),
        (Err(stated), Err(ShapeFault::Law(event))) => {
            if is_same(&stated, &event) {
                Ok(Some(event))
            } else {
                Err(Fail::from("two events"))
            }
        }
        (_, Err(ShapeFault::Memory)) => Err(Fail::from("no memory")),
        _ => Err(Fail::from("two answers")),
    }
}

/// The event of the plain check and of the one over kept values.
fn event(alloc: Global, draft: &Draft<Whole>) -> Result<Option<Event>, Fail> {
    let derived = derive_draft(alloc, draft)?;
    agreed(plain(draft, &derived), check(alloc, draft, &derived))
}

// 1 with R = 1 is the toric code's group, 1 with R = -1 the fermion.
#[test]
fn hold(rt: HostRuntime) -> Result<(), Fail> {
    for r in [1, -1] {
        let draft = drafted(rt.alloc(), 1, r, 1)?;
        assert!(rt; event(rt.alloc(), &draft)?.is_none());
    }
    Ok(())
}

// At g g g g 1 g 1 1 g the left side of the pentagon is 1 and the right one F(g,g,g,g;1,1) twice. At g g g g 1 1,
// where that is 1, the left side of a hexagon is the square of R(g,g,1) or of S(g,g,1) = R(g,g,1) w(g,g,1), and the
// right one 1.
#[test]
fn first_events(rt: HostRuntime) -> Result<(), Fail> {
    let rows = [
        (2, 1, 1, Kind::Fails, Law::Pentagon),
        (1 << 64, 2, 1, Kind::Overflow, Law::Pentagon),
        (1, 2, 2, Kind::Fails, Law::HexagonOne),
        (1, 1 << 64, 1, Kind::Overflow, Law::HexagonOne),
        (1, 1, 2, Kind::Fails, Law::HexagonTwo),
        (1, -1, 1 << 64, Kind::Overflow, Law::HexagonTwo),
    ];
    for (f, r, w, kind, law) in rows {
        let draft = drafted(rt.alloc(), f, r, w)?;
        let event = event(rt.alloc(), &draft)?.ok_or("no event")?;
        assert_eq!(rt; (event.kind, event.law), (kind, law), "{f} {r} {w}");
        let index: &[u8] = if law == Law::Pentagon {
            &[1, 1, 1, 1, 0, 1, 0, 0, 1]
        } else {
            &[1, 1, 1, 1, 0, 0]
        };
        assert_eq!(rt; event.index.as_slice(), index);
    }
    Ok(())
}
