use crate::product_names;
use std::test::Fail;

#[test]
fn names_of_pairs(rt: HostRuntime) -> Result<(), Fail> {
    let names = product_names(rt.alloc(), 12)?;
    assert_eq!(rt; names.count(), 12);
    assert_eq!(rt; names.name(0), "x0");
    assert_eq!(rt; names.name(11), "x11");
    Ok(())
}
