ghost use Rattle.std.specs.Prelude.{◌≡◌, IfOk};

use crate::{WeightFault, derive_draft};
use fusion_rules::{RuleRefused, Rules};
use ring_laws::{Int, Whole};
use std::alloc::Global;
use std::test::Fail;
use symbol_table::{Draft, FIndex, Kind, Law, VIndex};

const AT: FIndex = FIndex {
    a: 1,
    b: 1,
    c: 1,
    d: 1,
    e: 0,
    f: 1,
};

fn int(x: i128) -> Result<Int, Fail> {
    Ok(Int::new(x).ok_or("too large")?)
}

fn fibonacci() -> Result<Rules, RuleRefused>
    ensures { IfOk result (λ r. r.count ≡ 2) }
{
    let mut rules = Rules::new(2);
    rules.allow(1, 1, 0)?;
    rules.allow(1, 1, 1)?;
    Ok(rules)
}

fn drafted(alloc: Global) -> Result<Draft<Whole>, Fail>
    ensures { IfOk result (λ d. d.rules.count ≡ 2) }
{
    let mut draft = Draft::new(alloc, Whole, fibonacci()?);
    draft.set_f(AT, int(7)?)?;
    draft.set_r(VIndex { a: 1, b: 1, c: 0 }, int(11)?)?;
    draft.set_w(VIndex { a: 1, b: 1, c: 1 }, int(3)?)?;
    draft.set_v(VIndex { a: 1, b: 1, c: 0 }, int(5)?)?;
    Ok(draft)
}

// H = 7 · 3 · 3 · 5 · 1 at one index, and S = 11 · 1 · 5.
#[test]
fn derived_by_hand(rt: HostRuntime) -> Result<(), Fail> {
    let draft = drafted(rt.alloc())?;
    let derived = derive_draft(rt.alloc(), &draft)?;
    assert_eq!(rt; derived.h_at(&draft, 1, 1, 1, 1, 1, 0).get(), 315);
    assert_eq!(rt; derived.h_at(&draft, 0, 1, 1, 1, 1, 0).get(), 0);
    assert_eq!(rt; derived.s_at(&draft, 1, 1, 0).get(), 55);
    assert_eq!(rt; derived.s_at(&draft, 1, 0, 0).get(), 0);
    Ok(())
}

// 2^100 times 2^40 doesn't fit, and stands at one index of H alone.
#[test]
fn too_large(rt: HostRuntime) -> Result<(), Fail> {
    let mut draft = Draft::new(rt.alloc(), Whole, fibonacci()?);
    draft.set_f(AT, int(1 << 100)?)?;
    draft.set_w(VIndex { a: 1, b: 1, c: 1 }, int(1 << 40)?)?;
    let Err(WeightFault::Law(event)) = derive_draft(rt.alloc(), &draft) else {
        return Err(Fail::from("no event"));
    };
    assert_eq!(rt; (event.law, event.kind), (Law::DeriveH, Kind::Overflow));
    assert_eq!(rt; event.index.as_slice(), [1, 1, 1, 1, 1, 0].as_slice());
    Ok(())
}
