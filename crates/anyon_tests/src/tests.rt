// Faults of shelves and sinks in turn, and long texts. Worked rows stand in the crate `anyon_rows`.
ghost use Rattle.std.specs.Prelude.{◌<◌};

use anyon_app::{Status, anyon};
use io_ports::{MemShelf, MemSink};
use std::alloc::{AllocError, Global};
use std::process::Abort;
use std::test::Fail;

// The Fibonacci category, in two parts.
const FIB: &str = "category 1\nroot 5\nlabels 1 t\nfuse t t 1\nfuse t t t\n\
    f t t t t 1 1 -1,0,-1,-1\nf t t t t 1 t -1,0,-1,-1\nf t t t t t t 1,0,1,1\n";

const FIB_TAIL: &str = "r t t 1 0,0,0,1\nr t t t 1,1,1,1\nw t t 1 -1,0,-1,-1\nv t t 1 0,0,-1,-1\n";

// A left-combed start of four strands, and the charge of the two in the middle.
const MEASURED: &str = "program 1\nstart (((t t):1 t):t t):1\nmeasure 2\n";

// The one turn of its one site.
const TURN: &str = "schedule 1\nmain\n";

// No moves, the marks of the category, and a category of version 2.
const MOVES: &str = "moves 1\n";

const MARKS: &str = "marks 1\ntwist t 0,0,1\nloop t 0,0,-1,-1\n";

const SECOND: &str = "category 2\nroot 1\nlabels 1\n";

const ROWS: &str = "total 2,0,1,1\noutcome 1 weight 5,0,3,3\noutcome t weight -3,0,-2,-2\n";

fn joined(alloc: Global, first: &str, second: &str) -> Result<Vec<u8>, AllocError> {
    let mut text = Vec::from_slice(alloc, first.as_bytes())?;
    text.extend_from_slice(second.as_bytes())?;
    Ok(text)
}

// All texts, by their names.
fn files(alloc: Global) -> Result<Vec<(String, Vec<u8>)>, AllocError> {
    let mut files = Vec::new(alloc);
    for (name, first, second) in [
        ("CAT", FIB, FIB_TAIL),
        ("PROG", MEASURED, ""),
        ("SCHED", TURN, ""),
        ("MOVES", MOVES, ""),
        ("MARKS", MARKS, ""),
        ("SECOND", SECOND, ""),
    ] {
        files.push((
            String::from_str(alloc, name)?,
            joined(alloc, first, second)?,
        ))?;
    }
    Ok(files)
}

fn words(alloc: Global, line: &str) -> Result<Vec<String>, AllocError> {
    line.split_ascii_whitespace()
        .map(|word| String::from_str(alloc, word))
        .try_collect(alloc)
}

#[test]
fn no_words(rt: HostRuntime) -> Result<(), Fail> {
    let alloc = rt.alloc();
    let mut shelf = MemShelf::new(files(alloc)?, Vec::new(alloc), 4096);
    let mut sink = MemSink::new(alloc, 200, Vec::new(alloc), 200)?;
    assert_eq!(rt; anyon(alloc, &[], &mut shelf, &mut sink), Status::Usage);
    assert_eq!(rt; sink.taken().len(), 0);
    Ok(())
}

// Each call of the shelf, and then each call of the sink, fails in turn, with steps of 1 byte, of 7 and of all.
#[test]
fn faults(rt: HostRuntime) -> Result<(), Fail> {
    let alloc = rt.alloc();
    for line in [
        "run CAT PROG",
        "run CAT PROG SCHED",
        "trees CAT PROG",
        "trees CAT PROG SCHED",
        "comb CAT PROG",
        "linked CAT PROG PROG MOVES",
        "check CAT",
        "format CAT",
        "upgrade CAT MARKS",
        "galois CAT 2",
        "mirror CAT",
        "product SECOND SECOND",
    ] {
        for step in [1, 7, 4096] {
            fail_each(&rt, alloc, line, step)?;
        }
    }
    fail_each(&rt, alloc, "make 2", 7)?;
    Ok(())
}

fn fail_each(rt: &impl Abort, alloc: Global, line: &str, step: usize) -> Result<(), AllocError>
    requires { 0 < step }
{
    let words = words(alloc, line)?;

    let mut shelf = MemShelf::new(files(alloc)?, Vec::new(alloc), step);
    let mut whole = MemSink::new(alloc, 300, Vec::new(alloc), step)?;
    let status = anyon(alloc, words.as_slice(), &mut shelf, &mut whole);
    assert_eq!(rt; status, Status::Done, "{line}");

    for k in 0..shelf.calls() {
        let mut shelf = MemShelf::new(files(alloc)?, vec![in alloc; k + 1]?, step);
        let mut sink = MemSink::new(alloc, 300, Vec::new(alloc), step)?;
        let status = anyon(alloc, words.as_slice(), &mut shelf, &mut sink);
        assert_eq!(rt; status, Status::ReadFault, "{line}, read {k}");
        assert_eq!(rt; sink.taken().len(), 0, "{line}, read {k}");
    }
    for k in 0..whole.calls() {
        let mut shelf = MemShelf::new(files(alloc)?, Vec::new(alloc), step);
        let mut sink = MemSink::new(alloc, 300, vec![in alloc; k + 1]?, step)?;
        let status = anyon(alloc, words.as_slice(), &mut shelf, &mut sink);
        assert_eq!(rt; status, Status::WriteFault, "{line}, write {k}");
        assert_eq!(rt;
            sink.taken().len() as u64,
            k.saturating_mul(step as u64),
            "{line}, write {k}"
        );
        assert!(rt;
            whole.taken().starts_with(sink.taken()),
            "{line}, write {k}"
        );
    }
    Ok(())
}

// A text of 4,194,304 bytes is read, and one more byte is too many.
#[test]
fn long_texts(rt: HostRuntime) -> Result<(), Fail> {
    let alloc = rt.alloc();
    let too_long = "refused category too long\n";
    let long_program = "refused program too long\n";
    let long_schedule = "refused schedule too long\n";
    for (line, place, size, status, bytes) in [
        ("comb CAT PROG", 0, 4_194_304, Status::Done, ROWS),
        ("comb CAT PROG", 1, 4_194_305, Status::Refused, long_program),
        ("run CAT PROG SCHED", 2, 4_194_304, Status::Done, ROWS),
        (
            "run CAT PROG SCHED",
            2,
            4_194_305,
            Status::Refused,
            long_schedule,
        ),
        ("check CAT", 0, 4_194_305, Status::Refused, too_long),
        ("format CAT", 0, 4_194_305, Status::Refused, too_long),
    ] {
        let mut files = files(alloc)?;
        if let Some(file) = files.get_mut(place) {
            add_comments(&mut file.1, size)?;
        }
        let mut shelf = MemShelf::new(files, Vec::new(alloc), 4096);
        let mut sink = MemSink::new(alloc, 300, Vec::new(alloc), 200)?;
        let words = words(alloc, line)?;
        let answer = anyon(alloc, words.as_slice(), &mut shelf, &mut sink);
        assert_eq!(rt; answer, status, "{line} {size}");
        assert_eq!(rt; sink.taken(), bytes.as_bytes(), "{line} {size}");
    }
    Ok(())
}

// Comment lines of 64 bytes up to a size.
fn add_comments(text: &mut Vec<u8>, size: usize) -> Result<(), AllocError> {
    let more = size.saturating_sub(text.len());
    for place in 0..more {
        text.push(if place % 64 == 63 { b'\n' } else { b'#' })?;
    }
    Ok(())
}
