ghost use Rattle.std.specs.Prelude.{◌≡◌, IfOk};

use crate::{WeightFault, check};
use fusion_rules::Rules;
use ring_laws::{Int, Whole};
use std::alloc::Global;
use std::test::Fail;
use symbol_table::{Draft, FIndex, Kind, Law, VIndex};

const VERTEX: VIndex = VIndex { a: 1, b: 1, c: 0 };

fn int(x: i128) -> Result<Int, Fail> {
    Ok(Int::new(x).ok_or("too large")?)
}

// Two labels, of which the second times itself is the unit, and no symbol set.
fn z2(alloc: Global) -> Result<Draft<Whole>, Fail>
    ensures { IfOk result (λ d. d.rules.count ≡ 2) }
{
    let mut rules = Rules::new(2);
    rules.allow(1, 1, 0)?;
    Ok(Draft::new(alloc, Whole, rules))
}

// Two labels, of which the second times itself is both, and no symbol set.
fn fibonacci(alloc: Global) -> Result<Draft<Whole>, Fail>
    ensures { IfOk result (λ d. d.rules.count ≡ 2) }
{
    let mut rules = Rules::new(2);
    rules.allow(1, 1, 0)?;
    rules.allow(1, 1, 1)?;
    Ok(Draft::new(alloc, Whole, rules))
}

// The index of F of the second label alone.
fn all_ones(e: u8, f: u8) -> FIndex
    ensures { result ≡ record { a = 1; b = 1; c = 1; d = 1; e = e; f = f } }
{
    FIndex {
        a: 1,
        b: 1,
        c: 1,
        d: 1,
        e,
        f,
    }
}

// Whether a draft has this first event.
fn has_event(
    alloc: Global,
    draft: &Draft<Whole>,
    kind: Kind,
    law: Law,
    index: &[u8],
) -> Result<bool, Fail> {
    draft.rules().check()?;
    match check(alloc, draft) {
        Ok(_derived) => Ok(false),
        Err(WeightFault::Memory) => Ok(false),
        Err(WeightFault::Law(event)) => Ok(
            event.kind == kind && event.law == law && event.index.as_slice() == index,
        ),
    }
}

#[test]
fn passes(rt: HostRuntime) -> Result<(), Fail> {
    let draft = z2(rt.alloc())?;
    draft.rules().check()?;
    let derived = check(rt.alloc(), &draft)?;
    assert_eq!(rt; derived.h_at(&draft, 1, 1, 1, 1, 0, 0).get(), 1);
    assert_eq!(rt; derived.s_at(&draft, 1, 1, 0).get(), 1);
    Ok(())
}

// F = 3 where the first label is the unit.
#[test]
fn unit_fails(rt: HostRuntime) -> Result<(), Fail> {
    let mut draft = z2(rt.alloc())?;
    let at = FIndex {
        a: 0,
        b: 1,
        c: 1,
        d: 0,
        e: 1,
        f: 0,
    };
    draft.set_f(at, int(3)?)?;
    assert!(rt;
        has_event(
            rt.alloc(),
            &draft,
            Kind::Fails,
            Law::UnitF,
            &[0, 1, 1, 0, 1, 0]
        )?
    );
    Ok(())
}

// w v = 2 · 1.
#[test]
fn inverse_weight_fails(rt: HostRuntime) -> Result<(), Fail> {
    let mut draft = z2(rt.alloc())?;
    draft.set_w(VERTEX, int(2)?)?;
    assert!(rt; has_event(rt.alloc(), &draft, Kind::Fails, Law::InverseW, &[1, 1, 0])?);
    Ok(())
}

// R conj(R) w = 2 · 2 · 1.
#[test]
fn norm_fails(rt: HostRuntime) -> Result<(), Fail> {
    let mut draft = z2(rt.alloc())?;
    draft.set_r(VERTEX, int(2)?)?;
    assert!(rt; has_event(rt.alloc(), &draft, Kind::Fails, Law::NormR, &[1, 1, 0])?);
    Ok(())
}

// F H = 2 · 2, and a square of 2^127 - 1.
#[test]
fn inverse_fails(rt: HostRuntime) -> Result<(), Fail> {
    let mut draft = z2(rt.alloc())?;
    draft.set_f(all_ones(0, 0), int(2)?)?;
    assert!(rt;
        has_event(
            rt.alloc(),
            &draft,
            Kind::Fails,
            Law::InverseF,
            &[1, 1, 1, 1, 0, 0]
        )?
    );
    let mut large = z2(rt.alloc())?;
    large.set_f(all_ones(0, 0), int(i128::MAX)?)?;
    assert!(rt;
        has_event(
            rt.alloc(),
            &large,
            Kind::Overflow,
            Law::InverseF,
            &[1, 1, 1, 1, 0, 0]
        )?
    );
    Ok(())
}

// Fibonacci rules, and F with the rows 0 1 and 1 0: its own inverse, but 0 at the unit and the unit.
#[test]
fn rigid_fails(rt: HostRuntime) -> Result<(), Fail> {
    let mut draft = fibonacci(rt.alloc())?;
    draft.set_f(all_ones(0, 0), int(0)?)?;
    draft.set_f(all_ones(1, 1), int(0)?)?;
    assert!(rt; has_event(rt.alloc(), &draft, Kind::Fails, Law::Rigid, &[1])?);
    Ok(())
}

// Fibonacci rules, and F with the rows 1 0 and 1 0: its rows have norm 1, but aren't orthogonal.
#[test]
fn off_diagonal_fails(rt: HostRuntime) -> Result<(), Fail> {
    let mut draft = fibonacci(rt.alloc())?;
    draft.set_f(all_ones(0, 1), int(0)?)?;
    draft.set_f(all_ones(1, 1), int(0)?)?;
    assert!(rt;
        has_event(
            rt.alloc(),
            &draft,
            Kind::Fails,
            Law::InverseF,
            &[1, 1, 1, 1, 0, 1]
        )?
    );
    Ok(())
}
