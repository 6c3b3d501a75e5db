use crate::{Made, MakeFault, make};
use std::test::Fail;

#[test]
fn makes_two(rt: HostRuntime) -> Result<(), Fail> {
    let category = b"category 1
root 2
labels g0 g1
fuse g1 g1 g0
r g1 g1 g0 -1
";
    let Made {
        category: made,
        program,
        schedule,
    } = make(rt.alloc(), 2)?;
    assert!(rt; made.as_slice() == category.as_slice());
    assert_eq!(rt; program.len(), 20495);
    assert_eq!(rt; schedule.len(), 4107);
    Ok(())
}

#[test]
fn makes_five_and_twelve(rt: HostRuntime) -> Result<(), Fail> {
    let head = b"program 1
start (((((((((((((((g1 g2):g3 g3):g1 g4):g0 g0):g0 g1):g1 g2):g3 g3):g1 g4):g0 g0):g0 g1):g1 g2):g3 g3):g1 g4):g0 g0):g0 g1):g1
site A 1 8
braid 1 +
raise 2
braid 3 -
measure 4
braid 5 +
";
    let five = make(rt.alloc(), 5)?;
    assert_eq!(rt; five.category.len(), 560);
    assert_eq!(rt; five.program.len(), 20495);
    assert!(rt; five.program.as_slice().starts_with(head.as_slice()));
    let end = b"r g11 g11 g10 0,1\n";
    let twelve = make(rt.alloc(), 12)?;
    assert_eq!(rt; twelve.category.len(), 3690);
    assert_eq!(rt; twelve.program.len(), 20498);
    assert!(rt; twelve.category.as_slice().ends_with(end.as_slice()));
    Ok(())
}

#[test]
fn refuses_other_numbers(rt: HostRuntime) {
    assert!(rt; make(rt.alloc(), 1).err() == Some(MakeFault::Number));
    assert!(rt; make(rt.alloc(), 13).err() == Some(MakeFault::Number));
}
