// A shelf over the files of the machine and a sink over the standard output. Neither tells
// anything of content: what the machine holds and where output arrives is trusted.
ghost use Rattle.std.specs.Prelude.{◌≡◌, ◌≤◌, List, ℕ, [], IfOk, IsOkAnd, OnErr, is_ok, take};
ghost use Rattle.std.specs.Io.KnownBytes.{Appends};
ghost use Rattle.io_ports.specs.Ports.{FillsFront, GivesPiece, Rose, TakesSome, no_files, no_bytes};
ghost use Rattle.io_ports.specs.Memory.{faults_after};

use crate::{Failed, Shelf, Sink};
use std::io;
use std::io::{Read, Seek, SeekFrom, Write};
use std::marker::Model;
use std::rt::Files;

// The most bytes that one read gives.
const PIECE: usize = 4096;

/// The files of the machine. Each call opens the named file, seeks and reads at most 4,096 bytes.
///
/// It tells nothing of content. The number of failed calls, which stands still at `u64::MAX`, is
/// the count of every name.
#[derive(Drop)]
pub struct FileShelf<'a, R: Files> {
    rt: &'a R,
    faults: u64,
}

impl<'a, R: Files> Model for FileShelf<'a, R> {
    ghost use Rattle.std.specs.Prelude.{ℕ};

    ghost Value = { ℕ };

    ghost view = { λ s. s.faults };
}

impl<'a, R: Files> FileShelf<'a, R> {
    /// A shelf over these files, with no faults so far.
    pub fn new(rt: &'a R) -> FileShelf<'a, R>
        ensures { result ≡ 0 }
    {
        FileShelf { rt, faults: 0 }
    }
}

impl<'a, R: Files> Shelf for FileShelf<'a, R> {
    ghost files = { λ _. no_files };

    ghost faults = { λ s _. s };

    fn read(&mut self, name: &str, at: u64, buf: &mut [u8]) -> Result<usize, Failed>
        ensures front { IfOk result (λ n. FillsFront buf.old buf.new n) }
        ensures piece { IfOk result (λ n. GivesPiece no_files name.now at buf.new n) }
        ensures kept { no_files ≡ no_files }
        ensures later { (other : List ℕ) → self.old ≤ self.new }
        ensures failed { OnErr result (Rose self.old self.new) }
        ensures unfilled { OnErr result (buf.new ≡ buf.old) }

        ensures counted { self.new ≡ faults_after (is_ok result) self.old }
    {
        match read_at(self.rt, name, at, buf) {
            Ok(count) => Ok(count),
            Err(_) => {
                self.faults = self.faults.saturating_add(1);
                Err(Failed)
            }
        }
    }
}

// The library says nothing of a buffer behind the count, so the bytes come through one of our own.
fn read_at<R: Files>(rt: &R, name: &str, at: u64, buf: &mut [u8]) -> io::Result<usize>
    ensures front { IfOk result (λ n. FillsFront buf.old buf.new n) }
    ensures unfilled { OnErr result (buf.new ≡ buf.old) }
{
    let mut file = std::fs::open(rt, name)?;
    file.seek(SeekFrom::Start(at))?;
    let mut piece = [0u8; PIECE];
    let want = buf.len().min(PIECE);
    let count = file.read(&mut piece[..want])?;
    buf[..count].copy_from_slice(&piece[..count]);
    Ok(count)
}

/// The standard output.
///
/// It tells nothing of content. The number of failed calls, which stands still at `u64::MAX`, is
/// its count. A write that takes nothing of some bytes is a failed one.
#[derive(Drop)]
pub struct OutSink<'a, R: Print> {
    rt: &'a R,
    faults: u64,
}

impl<'a, R: Print> Model for OutSink<'a, R> {
    ghost use Rattle.std.specs.Prelude.{ℕ};

    ghost Value = { ℕ };

    ghost view = { λ s. s.faults };
}

impl<'a, R: Print> OutSink<'a, R> {
    /// A sink over this output, with no faults so far.
    pub fn new(rt: &'a R) -> OutSink<'a, R>
        ensures { result ≡ 0 }
    {
        OutSink { rt, faults: 0 }
    }
}

impl<'a, R: Print> Sink for OutSink<'a, R> {
    ghost taken = { λ _. no_bytes };

    ghost faults = { λ s. s };

    fn write(&mut self, bytes: &[u8]) -> Result<usize, Failed>
        ensures some { IfOk result (λ n. TakesSome bytes.now n) }
        ensures appends { IfOk result (λ n. Appends no_bytes no_bytes (take n bytes.now)) }
        ensures empty { bytes.now ≡ [] → IsOkAnd result (λ n. n ≡ 0) }
        ensures kept { OnErr result (no_bytes ≡ no_bytes) }
        ensures later { self.old ≤ self.new }
        ensures failed { OnErr result (Rose self.old self.new) }

        ensures counted { self.new ≡ faults_after (is_ok result) self.old }
    {
        if bytes.is_empty() {
            return Ok(0);
        }
        match io::writer(self.rt).write(bytes) {
            Ok(count) if count > 0 => Ok(count),
            _ => {
                self.faults = self.faults.saturating_add(1);
                Err(Failed)
            }
        }
    }
}

#[cfg(test)]
mod tests;
