use super::*;
use std::test::Fail;

const MOST: i128 = i128::MAX;

fn int(x: i128) -> Result<Int, Fail> {
    Ok(Int::new(x).ok_or("refused")?)
}

#[test]
fn numbers_of_128_bits_but_the_least(rt: HostRuntime) {
    assert!(rt; Int::new(i128::MIN).is_none());
    for x in [-MOST, -1, 0, 1, MOST] {
        assert_eq!(rt; Int::new(x).map(|n| n.get()), Some(x));
    }
}

#[test]
fn zero_and_one(rt: HostRuntime) {
    assert_eq!(rt; Whole.zero().get(), 0);
    assert_eq!(rt; Whole.one().get(), 1);
    assert!(rt; is_zero(&Whole, &Whole.zero()));
    assert!(rt; !is_zero(&Whole, &Whole.one()));
}

#[test]
fn sums_and_products_of_two(rt: HostRuntime) -> Result<(), Fail> {
    let rows = [
        (7, -3, Ok(4), Ok(-21)),
        (-7, -3, Ok(-10), Ok(21)),
        (MOST, 0, Ok(MOST), Ok(0)),
        (MOST - 1, 1, Ok(MOST), Ok(MOST - 1)),
        (MOST, 1, Err(Overflow), Ok(MOST)),
        (MOST, -1, Err(Overflow), Ok(-MOST)),
        (MOST, 2, Err(Overflow), Err(Overflow)),
    ];
    for (x, y, sum, product) in rows {
        let (x, y) = (int(x)?, int(y)?);
        assert_eq!(rt; Whole.add(&x, &y).map(|z| z.get()), sum);
        assert_eq!(rt; Whole.mul(&x, &y).map(|z| z.get()), product);
    }
    Ok(())
}

#[test]
fn one_number_alone(rt: HostRuntime) -> Result<(), Fail> {
    let x = int(MOST)?;
    assert_eq!(rt; Whole.neg(&x).get(), -MOST);
    assert_eq!(rt; Whole.conj(&x).map(|z| z.get()), Ok(MOST));
    assert!(rt; Whole.same(&x, &Whole.copy(&x)));
    assert!(rt; !Whole.same(&x, &Whole.neg(&x)));
    Ok(())
}

#[test]
fn a_product_on_top_of_a_sum(rt: HostRuntime) -> Result<(), Fail> {
    let rows = [
        (5, 6, 7, Ok(47)),
        (5, MOST, 2, Err(Overflow)),
        (1, MOST, 1, Err(Overflow)),
        (0, MOST, 1, Ok(MOST)),
    ];
    for (sum, x, y, answer) in rows {
        let (mut sum, x, y) = (int(sum)?, int(x)?, int(y)?);
        let before = sum.get();
        assert_eq!(rt; add_product(&Whole, &sum, &x, &y).map(|z| z.get()), answer);
        let after = Whole.add_product_to(&mut sum, &x, &y).map(|()| sum.get());
        assert_eq!(rt; after, answer);
        assert_eq!(rt; sum.get(), answer.unwrap_or(before));
    }
    Ok(())
}

#[test]
fn three_factors_on_top_of_a_sum(rt: HostRuntime) -> Result<(), Fail> {
    let rows = [
        (5, 2, 3, 7, Ok(42), Ok(47)),
        (1, MOST, 1, 1, Ok(MOST), Err(Overflow)),
        (0, MOST, 2, 0, Err(Overflow), Err(Overflow)),
    ];
    for (sum, x, y, z, product, answer) in rows {
        let (sum, x, y, z) = (int(sum)?, int(x)?, int(y)?, int(z)?);
        assert_eq!(rt; product3(&Whole, &x, &y, &z).map(|v| v.get()), product);
        assert_eq!(rt;
            add_product3(&Whole, &sum, &x, &y, &z).map(|v| v.get()),
            answer
        );
    }
    Ok(())
}

fn with_square(label: u8, sum: Int) -> Result<Int, Overflow> {
    let Some(x) = Int::new(i128::from(label)) else {
        return Err(Overflow);
    };
    add_product(&Whole, &sum, &x, &x)
}

#[test]
fn squares_of_the_labels_below_a_count(rt: HostRuntime) {
    for (count, sum) in [(0, 0), (1, 0), (4, 14)] {
        let answer = sum_over_labels(&Whole, count, |label, sum| with_square(label, sum));
        assert_eq!(rt; answer.map(|v| v.get()), Ok(sum));
    }
}
