// Which lines list a run, and that a run with a file that isn't there passes only where the list says so.
use super::{Run, is_skipped, passes, run_of};
use std::fs;
use std::test::Fail;

const EMPTY: &str = "anyon_examples_test.txt";

#[test]
fn reads_lines(rt: HostRuntime) -> Result<(), Fail> {
    let alloc = rt.alloc();
    for (line, skipped, listed) in [
        ("", true, false),
        ("# out.txt 0 check a.txt", true, false),
        ("out.txt", false, false),
        ("out.txt 0", false, false),
        ("out.txt 256 check", false, false),
        ("out.txt 1 check a.txt", false, true),
    ] {
        assert_eq!(rt; is_skipped(line), skipped, "{line}");
        assert_eq!(rt; run_of(alloc, line)?.is_some(), listed, "{line}");
    }
    Ok(())
}

#[test]
fn misses_files(rt: HostRuntime) -> Result<(), Fail> {
    let alloc = rt.alloc();
    fs::write(&rt, EMPTY, b"".as_slice())?;
    for (line, passed) in [
        ("anyon_examples_test.txt 3 check nothing.txt", true),
        ("anyon_examples_test.txt 0 check nothing.txt", false),
        ("nothing.txt 3 check nothing.txt", false),
    ] {
        let run: Option<Run> = run_of(alloc, line)?;
        let answer = match run {
            Some(run) => passes(&rt, &run)?,
            None => !passed,
        };
        assert_eq!(rt; answer, passed, "{line}");
    }
    fs::remove_file(&rt, EMPTY)?;
    Ok(())
}
