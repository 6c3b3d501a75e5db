ghost use Rattle.std.specs.Prelude.{IfOk, IsTrue};
ghost use Rattle.cyclo_core.specs.Ratio.{ring_at};

use crate::{Kept, Spread, Stop};
use cyclo_core::{Cyclo, Number};
use ring_laws::{Int, StarRing, Whole};
use std::test::Fail;

const MOST: i128 = i128::MAX;

fn int(x: i128) -> Result<Int, Fail> {
    Ok(Int::new(x).ok_or("too large")?)
}

fn product(kept: &mut Kept<Whole>, x: i128, y: i128) -> Result<Option<i128>, Fail> {
    let x = kept.number_of(int(x)?)?;
    let y = kept.number_of(int(y)?)?;
    match kept.product(x, y) {
        Ok(id) => Ok(Some(kept.value(id).get())),
        Err(Stop::TooLarge) => Ok(None),
        Err(Stop::Memory) => Err(Fail::from("no memory")),
    }
}

fn sum(kept: &mut Kept<Whole>, x: i128, y: i128) -> Result<Option<i128>, Fail> {
    let x = kept.number_of(int(x)?)?;
    let y = kept.number_of(int(y)?)?;
    match kept.sum(x, y) {
        Ok(id) => Ok(Some(kept.value(id).get())),
        Err(Stop::TooLarge) => Ok(None),
        Err(Stop::Memory) => Err(Fail::from("no memory")),
    }
}

// With room for one answer each new one is put over the last, with more they are remembered: the answers are the
// same, also when they are asked for again.
#[test]
fn products_and_sums(rt: HostRuntime) -> Result<(), Fail> {
    let rows = [
        (0, 0, Some(0), Some(0)),
        (7, -3, Some(-21), Some(4)),
        (-3, 7, Some(-21), Some(4)),
        (MOST, 0, Some(0), Some(MOST)),
        (MOST, 1, Some(MOST), None),
        (MOST, 2, None, None),
        (-7, -3, Some(21), Some(-10)),
    ];
    for room in [1, 2, 64] {
        let mut kept = Kept::new(rt.alloc(), &Whole, room)?;
        for _ in 0..2 {
            for (x, y, times, plus) in rows {
                assert_eq!(rt; product(&mut kept, x, y)?, times);
                assert_eq!(rt; sum(&mut kept, x, y)?, plus);
            }
        }
    }
    Ok(())
}

#[test]
fn equal_values_are_kept_once(rt: HostRuntime) -> Result<(), Fail> {
    let mut kept = Kept::new(rt.alloc(), &Whole, 8)?;
    assert_eq!(rt; kept.number_of(int(0)?)?, kept.zero());
    let five = kept.number_of(int(5)?)?;
    let other = kept.number_of(int(-5)?)?;
    assert_eq!(rt; kept.number_of(int(5)?)?, five);
    assert!(rt; kept.same(five, five));
    assert!(rt; !kept.same(five, other));
    assert_ne!(rt; Whole.spread(&int(5)?), Whole.spread(&int(-5)?));
    Ok(())
}

/// z^8, of a root whose phi is 16.
fn eighth_power(ring: &Cyclo) -> Result<Number, Fail>
    ensures { IfOk result (λ z. IsTrue ((ring_at ring.now).member z)) }
{
    if ring.phi() < 16 {
        return Err(Fail::from("phi is below 16"));
    }
    let nums = [0, 0, 0, 0, 0, 0, 0, 0, 1, 0, 0, 0, 0, 0, 0, 0];
    Ok(ring.reduced(&nums, 1)?)
}

// The polynomial of the 60th roots is z^16 + z^14 - z^10 - z^8 - z^6 + z^2 + 1.
#[test]
fn of_the_sixtieth_root(rt: HostRuntime) -> Result<(), Fail> {
    let ring = Cyclo::new(60)?;
    let mut kept = Kept::new(rt.alloc(), &ring, 8)?;
    let x = kept.number_of(eighth_power(&ring)?)?;
    let Ok(square) = kept.product(x, x) else {
        return Err(Fail::from("no product"));
    };
    let square = kept.value(square);
    for (j, n) in [(0, -1), (2, -1), (6, 1), (8, 1), (10, 1), (14, -1), (1, 0)] {
        assert_eq!(rt; square.numerator(j), n, "z^{j}");
    }
    assert_ne!(rt; ring.spread(square), ring.spread(&ring.one()));
    Ok(())
}
