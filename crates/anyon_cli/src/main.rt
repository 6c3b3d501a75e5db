//! Runs the top call over the files of the machine and the standard output.
//!
//! The exit codes are 0 done, 1 refused, 2 usage, 3 read fault, 4 write fault, 5 limit and 6 no
//! memory. For 2, 3, 4 and 6 one line stands on standard error.
#![tactic(auto)]

use anyon_app::{Status, anyon};
use io_ports::{FileShelf, OutSink};
use std::env::Env;
use std::io::ErrorKind;
use std::process::ExitCode;
use std::{env, io};

fn main(rt: HostRuntime) -> ExitCode {
    let status = match words(&rt) {
        Ok(words) => anyon(
            rt.alloc(),
            words.as_slice(),
            &mut FileShelf::new(&rt),
            &mut OutSink::new(&rt),
        ),
        Err(error) if error.kind() == ErrorKind::OutOfMemory => Status::NoMemory,
        // A word that isn't UTF-8.
        Err(_) => Status::Usage,
    };
    if let Some(line) = complaint(status) {
        // The status stands also where standard error is closed.
        let _ = eprintln!(rt; "{line}");
    }
    ExitCode::from(status.code())
}

// The words of the command line after the program's name.
fn words<R: Env + AllocGlobal>(rt: &R) -> io::Result<Vec<String>> {
    Ok(env::args(rt)?.skip(1).collect(rt.alloc())?)
}

// The line on standard error.
fn complaint(status: Status) -> Option<&'static str> {
    match status {
        Status::Usage => Some("usage"),
        Status::ReadFault => Some("read fault"),
        Status::WriteFault => Some("write fault"),
        Status::NoMemory => Some("no memory"),
        Status::Done | Status::Refused | Status::Limit => None,
    }
}

#[cfg(test)]
mod tests {
    use super::complaint;
    use anyon_app::Status;

    #[test]
    fn complaints(rt: HostRuntime) {
        for (status, code, line) in [
            (Status::Done, 0, None),
            (Status::Refused, 1, None),
            (Status::Usage, 2, Some("usage")),
            (Status::ReadFault, 3, Some("read fault")),
            (Status::WriteFault, 4, Some("write fault")),
            (Status::Limit, 5, None),
            (Status::NoMemory, 6, Some("no memory")),
        ] {
            assert_eq!(rt; status.code(), code);
            assert_eq!(rt; complaint(status), line);
        }
    }
}
