use crate::{Shape, is_left_comb, join, strand};
use std::test::Fail;

#[test]
fn joins_strands(rt: HostRuntime) -> Result<(), Fail> {
    let alloc = rt.alloc();
    let pair = join(alloc, strand(1), strand(1), 0)?;
    let comb = join(alloc, pair, strand(1), 1)?;
    assert!(rt; is_left_comb(&comb));
    let spread = join(alloc, strand(1), comb, 0)?;
    assert!(rt; !is_left_comb(&spread));
    Ok(())
}

#[test]
fn raises_a_node_and_back(rt: HostRuntime) -> Result<(), Fail> {
    let alloc = rt.alloc();
    let left = join(alloc, strand(1), strand(2), 0)?;
    let right = join(alloc, strand(3), strand(4), 0)?;
    let tree = join(alloc, left, right, 0)?;
    let mut shape = Shape::from_tree(&tree);
    let before = shape.copy();
    assert_eq!(rt; shape.leaves(), 4);
    assert_eq!(rt; shape.top(), 2);
    assert_eq!(rt; (shape.left(2), shape.right(2)), (Some(1), Some(3)));
    assert_eq!(rt; (shape.parent(1), shape.parent(2)), (Some(2), None));
    assert!(rt; shape.is_pair(3) && !shape.is_pair(2));
    shape.raise(1);
    assert_eq!(rt; shape.top(), 1);
    assert_eq!(rt; (shape.left(1), shape.right(1)), (None, Some(2)));
    assert_eq!(rt; (shape.left(2), shape.right(2)), (None, Some(3)));
    assert_eq!(rt; (before.top(), before.left(2)), (2, Some(1)));
    shape.raise(2);
    assert_eq!(rt;
        (shape.top(), shape.left(2), shape.right(2)),
        (2, Some(1), Some(3))
    );
    Ok(())
}

#[test]
fn settles_a_node(rt: HostRuntime) -> Result<(), Fail> {
    let alloc = rt.alloc();
    let left = join(alloc, strand(1), join(alloc, strand(1), strand(1), 0)?, 0)?;
    let right = join(alloc, join(alloc, strand(1), strand(1), 0)?, strand(1), 0)?;
    let mut shape = Shape::from_tree(&join(alloc, left, right, 0)?);
    let path = shape.settle_path(3);
    assert_eq!(rt; path.as_slice(), [1, 2, 5, 4].as_slice());
    shape.raise(1);
    shape.raise(2);
    shape.raise(5);
    assert!(rt; !shape.is_pair(3));
    shape.raise(4);
    assert!(rt; shape.is_pair(3));
    Ok(())
}
