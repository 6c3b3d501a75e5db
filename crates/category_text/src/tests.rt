use crate::{CategoryCause, CategoryFault, read_category, write_category};
use std::test::Fail;

// The lines of each group in order, and no value that is 1.
#[test]
fn reads_and_writes_fibonacci(rt: HostRuntime) -> Result<(), Fail> {
    let text = b"category 1
root 5
labels 1 t
fuse t t t
fuse t t 1
v t t 1 0,0,-1,-1
w t t 1 -1,0,-1,-1
w t t t 1
r t t t 1,1,1,1
r t t 1 0,0,0,1
f t t t t 1 1 -1,0,-1,-1
";
    let canonical = b"category 1
root 5
labels 1 t
fuse t t 1
fuse t t t
f t t t t 1 1 -1,0,-1,-1
r t t 1 0,0,0,1
r t t t 1,1,1,1
w t t 1 -1,0,-1,-1
v t t 1 0,0,-1,-1
";
    let named = read_category(rt.alloc(), text)?;
    assert_eq!(rt; named.names.count(), 2);
    assert_eq!(rt; named.draft.ring().root(), 5);
    let mut out = Vec::new(rt.alloc());
    write_category(rt.alloc(), &named, &mut out)?;
    assert!(rt; out.as_slice() == canonical.as_slice());
    Ok(())
}

// In the second version marks stand behind all symbols, in any order; those that are 1 have no line.
#[test]
fn second_version(rt: HostRuntime) -> Result<(), Fail> {
    let text =
        b"category 2\nroot 4\nlabels 1 g\nfuse g g 1\nloop g -1\ntwist g 0,1\nr g g 1 0,1\nloop 1 1\n";
    let canonical =
        b"category 2\nroot 4\nlabels 1 g\nfuse g g 1\nr g g 1 0,1\ntwist g 0,1\nloop g -1\n";
    let named = read_category(rt.alloc(), text)?;
    assert_eq!(rt; named.draft.version(), 2);
    let mut out = Vec::new(rt.alloc());
    write_category(rt.alloc(), &named, &mut out)?;
    assert!(rt; out.as_slice() == canonical.as_slice());
    Ok(())
}

#[test]
fn no_marks_in_the_first_version(rt: HostRuntime) {
    let text = b"category 1\nroot 4\nlabels 1 g\ntwist\n";
    let fault = CategoryFault::At {
        line: 4,
        cause: CategoryCause::Word,
    };
    assert!(rt; read_category(rt.alloc(), text).err() == Some(fault));
}

#[test]
fn refuses_the_first_line_at_fault(rt: HostRuntime) {
    let text = b"category 1\nroot 5\nlabels 1 t\nfuse t t 1\nr t t 1 2/2\nr t t 1 01\n";
    let fault = CategoryFault::At {
        line: 6,
        cause: CategoryCause::Repeated,
    };
    assert!(rt; read_category(rt.alloc(), text).err() == Some(fault));
}
