ghost use Rattle.std.specs.Prelude.{IsTrue, IfOk};
ghost use Rattle.cyclo_core.specs.Ratio.{ring_at};

use super::*;
use ring_laws::{Overflow, StarRing};
use std::test::Fail;

#[test]
fn rings_of_accepted_roots(rt: HostRuntime) {
    let rows = [
        (0, false),
        (17, true),
        (19, false),
        (34, true),
        (60, true),
        (61, false),
    ];
    for (root, accepted) in rows {
        assert_eq!(rt; Cyclo::new(root).is_ok(), accepted, "root {root}");
    }
}

#[test]
fn one_and_its_multiples(rt: HostRuntime) -> Result<(), Fail> {
    let ring = Cyclo::new(60)?;
    assert_eq!(rt; ring.root(), 60);
    assert_eq!(rt; ring.phi(), 16);
    let one = ring.one();
    let two = ring.add(&one, &one)?;
    assert_eq!(rt; two.numerator(0), 2);
    assert_eq!(rt; two.denominator(), 1);
    let four = ring.mul(&two, &two)?;
    assert_eq!(rt; four.numerator(0), 4);
    let none = ring.add(&four, &ring.neg(&four))?;
    assert!(rt; ring.same(&none, &ring.zero()));
    let turned = ring.conj(&four)?;
    assert!(rt; ring.same(&turned, &ring.copy(&four)));
    Ok(())
}

/// A number of a root whose phi is 16.
fn number(ring: &Cyclo, nums: &[i128; 16], den: i128) -> Result<Number, Fail>
    ensures { IfOk result (λ z. IsTrue ((ring_at ring.now).member z)) }
{
    if ring.phi() < 16 {
        return Ok(ring.zero());
    }
    Ok(ring.reduced(nums, den)?)
}

/// The image of a number by an exponent.
fn image(ring: &Cyclo, k: u8, x: &Number) -> Result<Number, Overflow>
    requires { IsTrue ((ring_at ring.now).member x.now) }
    ensures { IfOk result (λ z. IsTrue ((ring_at ring.now).member z)) }
{
    if !ring.is_exponent(k) {
        return Ok(ring.zero());
    }
    ring.image(k, x)
}

#[test]
fn exponents_of_roots(rt: HostRuntime) -> Result<(), Fail> {
    let rows = [
        (1, 0, false),
        (1, 1, true),
        (5, 4, true),
        (5, 5, false),
        (5, 6, false),
        (60, 49, true),
        (60, 51, false),
    ];
    for (root, k, whether) in rows {
        let ring = Cyclo::new(root)?;
        assert_eq!(rt; ring.is_exponent(k), whether, "root {root} exponent {k}");
    }
    Ok(())
}

#[test]
fn images_of_a_number_in_halves(rt: HostRuntime) -> Result<(), Fail> {
    let ring = Cyclo::new(60)?;
    let x = number(
        &ring,
        &[3, -1, 0, 7, 2, 0, 0, -5, 1, 4, 0, 0, 6, -2, 0, 9],
        2,
    )?;
    let rows = [
        (1, [3, -1, 0, 7, 2, 0, 0, -5, 1, 4, 0, 0, 6, -2, 0, 9]),
        (7, [6, 0, 1, 4, -8, -5, -2, -6, -3, 0, -1, 7, 2, 5, 9, -4]),
        (
            43,
            [3, -11, 2, -4, 0, 2, -6, 2, 0, 11, 0, 4, -2, -1, -1, -15],
        ),
        (
            59,
            [-1, 10, 3, 0, 6, -1, 6, 1, -2, -6, -2, -9, -7, 6, -4, -3],
        ),
    ];
    for (k, nums) in rows {
        let turned = image(&ring, k, &x)?;
        let expected = number(&ring, &nums, 2)?;
        assert!(rt; ring.same(&turned, &expected), "exponent {k}");
    }
    let back = image(&ring, 43, &image(&ring, 7, &x)?)?;
    assert!(rt; ring.same(&back, &x), "7 times 43 is 301");
    Ok(())
}

#[test]
fn images_at_the_limit(rt: HostRuntime) -> Result<(), Fail> {
    let ring = Cyclo::new(17)?;
    let mut nums = [0i128; 16];
    nums[8] = 1;
    nums[0] = i128::MAX - 1;
    let least = image(&ring, 2, &number(&ring, &nums, 1)?)?;
    assert_eq!(rt; least.numerator(0), i128::MAX - 2);
    assert_eq!(rt; least.numerator(15), -1);
    nums[0] = i128::MAX;
    assert!(rt; image(&ring, 2, &number(&ring, &nums, 1)?).is_err());
    Ok(())
}

#[test]
fn products_added_in_place(rt: HostRuntime) -> Result<(), Fail> {
    let ring = Cyclo::new(17)?;
    let most = i128::MAX;
    let room = 1i128 << 126;
    let rows = [
        (5, 1, 6, 7, Some((47, 1))),
        (1, 2, -3, 7, Some((-41, 2))),
        (room, 1, 1 << 24, -1, Some((room - (1 << 24), 1))),
        (room + 1, 1, 3, 4, Some((room + 13, 1))),
        (-5, 1, 1 << 25, 1 << 25, Some(((1 << 50) - 5, 1))),
        (most - 1, 1, 1, 1, Some((most, 1))),
        (most, 1, 1, 1, None),
        (0, 1, most, 2, None),
    ];
    for (before, den, x, y, after) in rows {
        let mut nums = [0i128; 16];
        nums[0] = before;
        let mut sum = number(&ring, &nums, den)?;
        // z^8 times z^9 is 1.
        let (mut left, mut right) = ([0i128; 16], [0i128; 16]);
        left[8] = x;
        right[9] = y;
        let (left, right) = (number(&ring, &left, 1)?, number(&ring, &right, 1)?);
        let added = ring.add_product_to(&mut sum, &left, &right);
        assert_eq!(rt;
            added.is_ok(),
            after.is_some(),
            "{before} and {x} times {y}"
        );
        let (first, under) = after.unwrap_or((before, den));
        assert_eq!(rt; sum.numerator(0), first);
        assert_eq!(rt; sum.denominator(), under);
    }
    Ok(())
}
