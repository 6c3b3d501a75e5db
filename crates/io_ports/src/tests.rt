// Texts and bytes in memory.
use super::*;
use std::alloc::{AllocError, Global};
use std::test::Fail;

fn files(alloc: Global) -> Result<Vec<(String, Vec<u8>)>, AllocError> {
    let mut files = Vec::new(alloc);
    for (name, text) in [("five", "hello"), ("none", "")] {
        files.push((
            String::from_str(alloc, name)?,
            Vec::from_slice(alloc, text.as_bytes())?,
        ))?;
    }
    Ok(files)
}

#[test]
fn loads_texts(rt: HostRuntime) -> Result<(), Fail> {
    let alloc = rt.alloc();
    for (name, limit, want) in [
        ("five", 5u8, Ok("hello")),
        ("five", 4, Err(LoadFault::TooLong)),
        ("none", 0, Ok("")),
        ("gone", 9, Err(LoadFault::Failed)),
    ] {
        let mut shelf = SureShelf::new(files(alloc)?, 2);
        match (load(alloc, &mut shelf, name, usize::from(limit)), want) {
            (Ok(text), Ok(bytes)) => assert_eq!(rt; text.as_slice(), bytes.as_bytes(), "{name}"),
            (Err(fault), Err(wanted)) => assert_eq!(rt; fault, wanted, "{name}"),
            _ => panic!(rt; "{name} {limit}"),
        }
    }
    Ok(())
}

#[test]
fn counts_calls(rt: HostRuntime) -> Result<(), Fail> {
    let alloc = rt.alloc();
    // Four reads at step 2: "he", "ll", "o" and the end.
    for (fail, calls, want) in [
        (0, 4, None),
        (4, 4, Some(LoadFault::Failed)),
        (2, 2, Some(LoadFault::Failed)),
    ] {
        let mut shelf = MemShelf::new(files(alloc)?, vec![in alloc; fail]?, 2);
        assert_eq!(rt; load(alloc, &mut shelf, "five", 5).err(), want, "at {fail}");
        assert_eq!(rt; shelf.calls(), calls, "at {fail}");
    }
    Ok(())
}

#[test]
fn puts_bytes(rt: HostRuntime) -> Result<(), Fail> {
    let alloc = rt.alloc();
    for (room, fail, calls, want, taken) in [
        (5, 0, 3, Ok(()), "hello"),
        (4, 0, 3, Err(SinkFailed), "hell"),
        (5, 2, 2, Err(SinkFailed), "he"),
    ] {
        let mut sink = MemSink::new(alloc, room, vec![in alloc; fail]?, 2)?;
        assert_eq!(rt; put_all(&mut sink, b"hello"), want, "room {room}");
        assert_eq!(rt; sink.taken(), taken.as_bytes(), "room {room}");
        assert_eq!(rt; sink.calls(), calls, "room {room}");
    }
    Ok(())
}
