ghost use Rattle.std.specs.Prelude.{◌≡◌, IfOk};

use crate::{Derived, Draft, FIndex, Labels, Law, MarkFault, SetFault, Triple, VIndex};
use fusion_rules::Rules;
use ring_laws::{Int, Whole};
use std::alloc::Global;
use std::test::Fail;

const SIX: FIndex = FIndex {
    a: 1,
    b: 1,
    c: 1,
    d: 1,
    e: 0,
    f: 1,
};

const VERTEX: VIndex = VIndex { a: 1, b: 1, c: 0 };

fn int(x: i128) -> Result<Int, Fail> {
    Ok(Int::new(x).ok_or("too large")?)
}

// Fibonacci rules over the whole numbers, with one symbol of each kind set.
fn drafted(alloc: Global) -> Result<Draft<Whole>, Fail>
    ensures { IfOk result (λ d. d.rules.count ≡ 2) }
{
    let mut rules = Rules::new(2);
    rules.allow(1, 1, 0)?;
    rules.allow(1, 1, 1)?;
    let mut draft = Draft::new(alloc, Whole, rules);
    draft.set_f(SIX, int(7)?)?;
    draft.set_r(VERTEX, int(11)?)?;
    draft.set_w(VERTEX, int(3)?)?;
    draft.set_v(VERTEX, int(5)?)?;
    Ok(draft)
}

#[test]
fn set_and_read(rt: HostRuntime) -> Result<(), Fail> {
    let draft = drafted(rt.alloc())?;
    assert_eq!(rt; draft.version(), 1);
    assert_eq!(rt; draft.f_at(1, 1, 1, 1, 0, 1).get(), 7);
    assert_eq!(rt; draft.f_at(1, 1, 1, 1, 1, 0).get(), 1);
    assert_eq!(rt; draft.f_at(0, 1, 1, 1, 0, 1).get(), 0);
    assert_eq!(rt; draft.r_at(1, 1, 0).get(), 11);
    assert_eq!(rt; draft.w_at(1, 1, 0).get(), 3);
    assert_eq!(rt; draft.v_at(1, 1, 0).get(), 5);
    Ok(())
}

#[test]
fn repeated(rt: HostRuntime) -> Result<(), Fail> {
    let mut draft = drafted(rt.alloc())?;
    assert_eq!(rt; draft.set_r(VERTEX, int(2)?), Err(SetFault::Repeated));
    Ok(())
}

#[test]
fn second_version(rt: HostRuntime) -> Result<(), Fail> {
    let mut draft = Draft::new(rt.alloc(), Whole, Rules::new(2));
    draft.second();
    assert_eq!(rt; draft.version(), 2);
    draft.set_twist(1, int(7)?)?;
    draft.set_loop(1, int(9)?)?;
    assert_eq!(rt; (draft.twist(0).get(), draft.loop_value(0).get()), (1, 1));
    assert_eq!(rt; (draft.twist(1).get(), draft.loop_value(1).get()), (7, 9));
    assert_eq!(rt; draft.set_twist(1, int(2)?), Err(MarkFault::Repeated));
    assert_eq!(rt; (draft.has_twist(1), draft.has_loop(0)), (true, false));
    Ok(())
}

#[test]
fn not_admissible(rt: HostRuntime) -> Result<(), Fail> {
    let mut draft = drafted(rt.alloc())?;
    let at = VIndex { a: 0, b: 1, c: 0 };
    assert_eq!(rt; draft.set_v(at, int(2)?), Err(SetFault::NotAdmissible));
    Ok(())
}

#[test]
fn put_and_read(rt: HostRuntime) -> Result<(), Fail> {
    let mut derived: Derived<Whole> = Derived::new(rt.alloc());
    derived.put_s(VERTEX, int(4)?)?;
    derived.put_s(VERTEX, int(9)?)?;
    assert_eq!(rt; derived.s(&Whole, &VERTEX).get(), 9);
    derived.put_h(SIX, int(8)?)?;
    assert_eq!(rt; derived.h(&Whole, &SIX).get(), 8);
    Ok(())
}

#[test]
fn laws_as_data(rt: HostRuntime) -> Result<(), Fail> {
    assert_eq!(rt; Law::Rigid.triples().len(), 0);
    assert_eq!(rt; Law::Pentagon.places(), 9);
    assert_eq!(rt; Law::Pentagon.triples()[3], Triple { a: 2, b: 3, c: 7 });
    let labels = Labels::new().with(4).with(7);
    assert_eq!(rt; labels.as_slice(), [4u8, 7].as_slice());
    Ok(())
}
