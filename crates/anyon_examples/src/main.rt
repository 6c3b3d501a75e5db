//! Runs the examples: calls of the top call over the files beside this program's list, `runs.txt`.
//!
//! A line of the list is `REPORT STATUS WORDS..`: the file that holds what must be printed, the exit status, and the
//! words of the command line, with files by their names. Blank lines and lines whose first word begins with `#` are
//! skipped. For each run one line is printed: `ok REPORT` where the bytes are those of the file and the status is that
//! of the list, and else `DIFFERS REPORT`; for a line that lists no run, `NO RUN` and the line. The exit status is 0
//! where every line was `ok`.
#![tactic(auto)]

ghost use Rattle.std.specs.Prelude.{◌≡◌, ◌↔◌, true};

use anyon_app::anyon;
use io_ports::{FileShelf, MemSink, load};
use std::alloc::{AllocError, Global};
use std::process::ExitCode;
use std::{fs, io};

// The most bytes of a report.
const REPORT_LIMIT: usize = 131_072;

// A run of the list.
#[derive(Drop)]
struct Run {
    report: String,
    status: u8,
    words: Vec<String>,
}

// The run that a line lists; none where the line has no report, no status from 0 to 255 or no words behind them.
fn run_of(alloc: Global, line: &str) -> Result<Option<Run>, AllocError> {
    let mut words = line.split_ascii_whitespace();
    let (Some(report), Some(status)) = (words.next(), words.next()) else {
        return Ok(None);
    };
    let Ok(status) = status.parse::<u8>() else {
        return Ok(None);
    };
    let words: Vec<String> = words
        .map(|word| String::from_str(alloc, word))
        .try_collect(alloc)?;
    if words.is_empty() {
        return Ok(None);
    }
    let report = String::from_str(alloc, report)?;
    Ok(Some(Run {
        report,
        status,
        words,
    }))
}

// Whether these bytes and this code are those that are wanted.
fn agrees(written: &[u8], code: u8, wanted: &[u8], status: u8) -> bool
    ensures { (result ≡ true) ↔ ((written.now ≡ wanted.now) × (code ≡ status)) }
{
    code == status && written == wanted
}

// Calls the program over the files of the machine and compares its answer with the report; false where the report
// can't be read.
fn passes(rt: &HostRuntime, run: &Run) -> Result<bool, AllocError> {
    let alloc = rt.alloc();
    let mut shelf = FileShelf::new(rt);
    let Ok(wanted) = load(alloc, &mut shelf, run.report.as_str(), REPORT_LIMIT) else {
        return Ok(false);
    };
    let mut sink = MemSink::new(alloc, REPORT_LIMIT, Vec::new(alloc), REPORT_LIMIT)?;
    let status = anyon(alloc, run.words.as_slice(), &mut shelf, &mut sink);
    Ok(agrees(sink.taken(), status.code(), &wanted, run.status))
}

fn is_skipped(line: &str) -> bool {
    match line.split_ascii_whitespace().next() {
        Some(word) => word.starts_with('#'),
        None => true,
    }
}

// Prints how the run of a line went, and says whether it passed.
fn tell(rt: &HostRuntime, line: &str) -> io::Result<bool> {
    let Some(run) = run_of(rt.alloc(), line)? else {
        println!(rt; "NO RUN {line}")?;
        return Ok(false);
    };
    let passed = passes(rt, &run)?;
    let word = if passed { "ok" } else { "DIFFERS" };
    println!(rt; "{word} {}", run.report)?;
    Ok(passed)
}

fn main(rt: HostRuntime) -> io::Result<ExitCode> {
    let list = fs::read_to_string(&rt, "runs.txt")?;
    let mut all = true;
    for line in list.lines() {
        if !is_skipped(line) && !tell(&rt, line)? {
            all = false;
        }
    }
    Ok(if all {
        ExitCode::SUCCESS
    } else {
        ExitCode::FAILURE
    })
}

#[cfg(test)]
mod tests;
