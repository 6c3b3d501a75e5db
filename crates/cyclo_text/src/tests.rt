use super::*;
use cyclo_core::{Cyclo, Number};
use ring_laws::StarRing;
use std::alloc::Global;
use std::test::Fail;

fn written(alloc: Global, number: &Number) -> Result<String, Fail> {
    let mut out = Vec::new(alloc);
    write_number(alloc, number, &mut out)?;
    Ok(String::from_utf8(out)?)
}

#[test]
fn words_are_refused_in_order(rt: HostRuntime) -> Result<(), Fail> {
    let ring = Cyclo::new(5)?;
    let rows = [
        ("-0", NumberWord::Spelling),
        ("01", NumberWord::Spelling),
        ("+1", NumberWord::Spelling),
        ("1,", NumberWord::Spelling),
        ("", NumberWord::Spelling),
        ("1/2/3", NumberWord::Spelling),
        ("1/", NumberWord::Spelling),
        ("1,0,0,0,0", NumberWord::TooManyParts),
        (
            "170141183460469231731687303715884105728,0,0,0,0",
            NumberWord::TooManyParts,
        ),
        (
            "170141183460469231731687303715884105728",
            NumberWord::TooBig,
        ),
        (
            "-170141183460469231731687303715884105728",
            NumberWord::TooBig,
        ),
        (
            "170141183460469231731687303715884105728/0",
            NumberWord::TooBig,
        ),
        ("1/0", NumberWord::ZeroDenominator),
    ];
    for (word, fault) in rows {
        assert_eq!(rt;
            read_number(&ring, word.as_bytes()).err(),
            Some(fault),
            "{word}"
        );
    }
    Ok(())
}

#[test]
fn numbers_are_written_in_one_way(rt: HostRuntime) -> Result<(), Fail> {
    let ring = Cyclo::new(5)?;
    let rows = [
        ("2/4", "1/2"),
        ("1,0,0,0", "1"),
        ("0/7", "0"),
        ("-6,0,3/9", "-2,0,1/3"),
        ("0,0,0,-1", "0,0,0,-1"),
        (
            "-170141183460469231731687303715884105727",
            "-170141183460469231731687303715884105727",
        ),
    ];
    for (word, spelling) in rows {
        let number = read_number(&ring, word.as_bytes()).map_err(|_| "refused")?;
        assert_eq!(rt; written(rt.alloc(), &number)?.as_str(), spelling, "{word}");
    }
    Ok(())
}

#[test]
fn products_in_the_fifth_and_the_twelfth_roots(rt: HostRuntime) -> Result<(), Fail> {
    let rows = [
        (5, "0,1", "0,0,0,1", "-1,-1,-1,-1"),
        (5, "1,1/2", "2/3", "1,1/3"),
        (12, "0,0,1", "0,0,0,1", "0,-1,0,1"),
        (
            60,
            "0,1",
            "0,0,0,0,0,0,0,0,0,0,0,0,0,0,0,1",
            "-1,0,-1,0,0,0,1,0,1,0,1,0,0,0,-1",
        ),
        (
            60,
            "0,33554432",
            "0,0,0,0,0,0,0,0,0,0,0,0,0,0,0,1",
            "-33554432,0,-33554432,0,0,0,33554432,0,33554432,0,33554432,0,0,0,-33554432",
        ),
        (
            60,
            "3,1,-4,1,5,-9,2,6,-5,3,5,-8,9,7,-9,3",
            "-9,2,6,-5,3,5,-8,9,7,-9,3,3,1,-4,1,5",
            "-81,-413,410,-497,-13,311,-181,299,-94,336,-236,589,-300,-338,647,-618",
        ),
    ];
    for (root, left, right, product) in rows {
        let ring = Cyclo::new(root)?;
        let x = read_number(&ring, left.as_bytes()).map_err(|_| "refused")?;
        let y = read_number(&ring, right.as_bytes()).map_err(|_| "refused")?;
        let z = ring.mul(&x, &y)?;
        assert_eq!(rt; written(rt.alloc(), &z)?.as_str(), product, "root {root}");
    }
    Ok(())
}
