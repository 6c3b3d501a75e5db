// The files and the output of the machine, of which no clause tells the content.
use super::{FileShelf, OutSink};
use crate::{Failed, Shelf, Sink, load, put_all};
use std::cell::RefCell;
use std::fmt::Display;
use std::test::Fail;
use std::{fs, io};

const NAME: &str = "io_ports_test.txt";

#[test]
fn reads_files(rt: HostRuntime) -> Result<(), Fail> {
    let alloc = rt.alloc();
    let text = vec![in alloc; b'x'; 5000]?;
    fs::write(&rt, NAME, text.as_slice())?;

    let mut shelf = FileShelf::new(&rt);
    let mut buf = [b'-'; 4];
    assert_eq!(rt; shelf.read(NAME, 4998, &mut buf), Ok(2));
    assert_eq!(rt; buf, *b"xx--");
    assert_eq!(rt; shelf.read(NAME, 5000, &mut buf), Ok(0));
    assert_eq!(rt; load(alloc, &mut shelf, NAME, 5000)?, text);
    assert_eq!(rt; shelf.faults, 0);

    fs::remove_file(&rt, NAME)?;
    assert_eq!(rt; shelf.read(NAME, 0, &mut buf), Err(Failed));
    assert_eq!(rt; shelf.faults, 1);
    Ok(())
}

// An output that takes nothing, or is closed.
#[derive(Drop)]
struct Stuck {
    closed: bool,
}

impl Print for Stuck {
    fn print<D: Display + Drop>(&self, _value: D) -> io::Result<()> {
        Ok(())
    }

    fn println<D: Display + Drop>(&self, _value: D) -> io::Result<()> {
        Ok(())
    }

    fn write_all(&self, _bytes: &[u8]) -> io::Result<()> {
        Err(io::Error::from(io::ErrorKind::BrokenPipe))
    }

    fn write_some(&self, bytes: &[u8]) -> io::Result<usize> {
        if self.closed {
            self.write_all(bytes)?;
        }
        Ok(0)
    }
}

// An output that takes two bytes a call, and keeps them.
#[derive(Drop)]
struct Narrow {
    taken: RefCell<Vec<u8>>,
}

impl Print for Narrow {
    fn print<D: Display + Drop>(&self, _value: D) -> io::Result<()> {
        Ok(())
    }

    fn println<D: Display + Drop>(&self, _value: D) -> io::Result<()> {
        Ok(())
    }

    fn write_all(&self, _bytes: &[u8]) -> io::Result<()> {
        Err(io::Error::from(io::ErrorKind::BrokenPipe))
    }

    fn write_some(&self, bytes: &[u8]) -> io::Result<usize> {
        let some = &bytes[..bytes.len().min(2)];
        let Ok(mut taken) = self.taken.try_borrow_mut() else {
            return Err(io::Error::from(io::ErrorKind::ResourceBusy));
        };
        if taken.extend_from_slice(some).is_err() {
            return Err(io::Error::from(io::ErrorKind::OutOfMemory));
        }
        Ok(some.len())
    }
}

// What is taken of a write is what it answers, so all bytes arrive once and in order.
#[test]
fn delivers_all(rt: HostRuntime) -> Result<(), Fail> {
    let narrow = Narrow {
        taken: RefCell::new(Vec::new(rt.alloc())),
    };
    let mut out = OutSink::new(&narrow);
    assert_eq!(rt; out.write(b"braid"), Ok(2));
    put_all(&mut out, b"aid 2 +\n")?;
    assert_eq!(rt; out.faults, 0);
    assert_eq!(rt;
        narrow.taken.into_inner().as_slice(),
        b"braid 2 +\n".as_slice()
    );
    Ok(())
}

#[test]
fn writes_to_output(rt: HostRuntime) -> Result<(), Fail> {
    let mut out = OutSink::new(&rt);
    put_all(&mut out, b"io_ports: the standard output\n")?;
    assert_eq!(rt; out.faults, 0);

    for closed in [false, true] {
        let stuck = Stuck { closed };
        let mut out = OutSink::new(&stuck);
        assert_eq!(rt; out.write(b""), Ok(0));
        assert_eq!(rt; out.write(b"x"), Err(Failed), "closed: {closed}");
        assert_eq!(rt; out.faults, 1, "closed: {closed}");
    }
    Ok(())
}
