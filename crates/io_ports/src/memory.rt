// Shelves and a sink in memory, which fail where they are told to.
ghost use Rattle.std.specs.Prelude.{◌≡◌, ◌++◌, nat_lt, if◌then◌else◌, ◌≤◌, ◌<◌, ◌+◌, ◌-◌, ◌^◌, ◌&&◌, min, length, drop, take, List, ℕ, Option, Some, None, unwrap_or, [], IfOk, OnErr, IsOkAnd, MatchOption, not, is_some, is_ok, nat_eq};
ghost use Rattle.std.specs.Io.KnownBytes.{Appends};
ghost use Rattle.io_ports.specs.Ports.{Rose, FillsFront, GivesPiece, PieceOf, TakesSome, count_up};
ghost use Rattle.io_ports.specs.Memory.{HeldFiles, SureFiles, HeldBytes, contents_of, files_of, fails_at, faults_after, piece_length, sure_faults, room_left, taken_length};

use crate::{Failed, Shelf, Sink};
use std::alloc::{AllocError, Global};
use std::marker::Model;

/// Files in memory, some of whose reads fail.
///
/// It tells its map, in which a name has its first text. The k-th call, counted from 1, fails where
/// k is in `fail` or there is no such name. A call gives as much as there is and `buf` holds, at most
/// `step` bytes. The number of failed calls is the count of every name. Both numbers stand still at `u64::MAX`.
#[derive(Drop)]
pub struct MemShelf {
    files: Vec<(String, Vec<u8>)>,
    fail: Vec<u64>,
    step: usize,
    calls: u64,
    failed: u64,
}

impl Model for MemShelf {
    ghost use Rattle.std.specs.Prelude.{◌<◌};
    ghost use Rattle.io_ports.specs.Memory.{HeldFiles, contents_of};

    ghost Value = { HeldFiles };

    ghost view = { λ s. record {
      files = contents_of s.files.items;
      fail = s.fail.items;
      step = s.step;
      calls = s.calls;
      failed = s.failed;
    } };

    ghost invariant = { λ s. 0 < s.step };
}

impl MemShelf {
    /// A shelf of these names and texts. Takes no memory.
    pub fn new(files: Vec<(String, Vec<u8>)>, fail: Vec<u64>, step: usize) -> MemShelf
        requires { 0 < step }
        ensures { result ≡ record { files = contents_of files.items; fail = fail.items; step = step; calls = 0; failed = 0 } }
    {
        MemShelf {
            files,
            fail,
            step,
            calls: 0,
            failed: 0,
        }
    }

    /// How many calls there were, the failed ones too. Takes no memory.
    pub fn calls(&self) -> u64
        ensures { result ≡ self.now.calls }
    {
        self.calls
    }
}

impl Shelf for MemShelf {
    ghost files = { λ s. Some (files_of s.files) };

    ghost faults = { λ s _. s.failed };

    fn read(&mut self, name: &str, at: u64, buf: &mut [u8]) -> Result<usize, Failed>
        ensures front { IfOk result (λ n. FillsFront buf.old buf.new n) }
        ensures piece { IfOk result (λ n. GivesPiece (Some (files_of self.old.files)) name.now at buf.new n) }
        ensures kept { Some (files_of self.new.files) ≡ Some (files_of self.old.files) }
        ensures later { (other : List ℕ) → self.old.failed ≤ self.new.failed }
        ensures failed { OnErr result (Rose self.old.failed self.new.failed) }
        ensures unfilled { OnErr result (buf.new ≡ buf.old) }

        ensures counted { self.new ≡ record self.old {
          calls = count_up self.old.calls;
          failed = faults_after (is_ok result) self.old.failed;
        } }
        ensures fails { is_ok result ≡ (not (fails_at self.old.fail self.new.calls) && is_some (files_of self.old.files name.now)) }
        ensures gives { IfOk result (λ n. n ≡ piece_length (unwrap_or (files_of self.old.files name.now) []) at self.old.step (length buf.old)) }
    {
        self.calls = self.calls.saturating_add(1);
        let fails = self.fail.contains(&self.calls);
        match text_of(&self.files, name) {
            Some(text) if !fails => Ok(take_piece(text, at, self.step, buf)),
            _ => {
                self.failed = self.failed.saturating_add(1);
                Err(Failed)
            }
        }
    }
}

/// Files in memory, whose reads fail only where there is no such name.
///
/// It tells its map, in which a name has its first text. A call gives as much as there is and `buf`
/// holds, at most `step` bytes. The count of a name that it holds is always 0. The number of failed calls, which
/// stands still at `u64::MAX`, is the count of every other name.
#[derive(Drop)]
pub struct SureShelf {
    files: Vec<(String, Vec<u8>)>,
    step: usize,
    failed: u64,
}

impl Model for SureShelf {
    ghost use Rattle.std.specs.Prelude.{◌<◌};
    ghost use Rattle.io_ports.specs.Memory.{SureFiles, contents_of};

    ghost Value = { SureFiles };

    ghost view = { λ s. record { files = contents_of s.files.items; step = s.step; failed = s.failed } };

    ghost invariant = { λ s. 0 < s.step };
}

impl SureShelf {
    /// A shelf of these names and texts. Takes no memory.
    pub fn new(files: Vec<(String, Vec<u8>)>, step: usize) -> SureShelf
        requires { 0 < step }
        ensures { result ≡ record { files = contents_of files.items; step = step; failed = 0 } }
    {
        SureShelf {
            files,
            step,
            failed: 0,
        }
    }
}

impl Shelf for SureShelf {
    ghost files = { λ s. Some (files_of s.files) };

    ghost faults = { sure_faults };

    fn read(&mut self, name: &str, at: u64, buf: &mut [u8]) -> Result<usize, Failed>
        ensures front { IfOk result (λ n. FillsFront buf.old buf.new n) }
        ensures piece { IfOk result (λ n. GivesPiece (Some (files_of self.old.files)) name.now at buf.new n) }
        ensures kept { Some (files_of self.new.files) ≡ Some (files_of self.old.files) }
        ensures later { (other : List ℕ) → sure_faults self.old other ≤ sure_faults self.new other }
        ensures failed { OnErr result (Rose (sure_faults self.old name.now) (sure_faults self.new name.now)) }
        ensures unfilled { OnErr result (buf.new ≡ buf.old) }

        ensures counted { self.new ≡ record self.old { failed = faults_after (is_ok result) self.old.failed } }
        ensures fails { is_ok result ≡ is_some (files_of self.old.files name.now) }
        ensures gives { IfOk result (λ n. n ≡ piece_length (unwrap_or (files_of self.old.files name.now) []) at self.old.step (length buf.old)) }
    {
        match text_of(&self.files, name) {
            Some(text) => Ok(take_piece(text, at, self.step, buf)),
            None => {
                self.failed = self.failed.saturating_add(1);
                Err(Failed)
            }
        }
    }
}

/// A sink in memory with room for so many bytes in all, some of whose calls fail.
///
/// It tells what it took. A call with no bytes answers `Ok(0)` and isn't counted. Of the other
/// calls the k-th, counted from 1, fails where k is in `fail` or no room is left. A call takes
/// as much as there is and there is room for, at most `step` bytes. The number of failed calls is its
/// count. Both numbers stand still at `u64::MAX`.
#[derive(Drop)]
pub struct MemSink {
    bytes: Vec<u8>,
    fail: Vec<u64>,
    step: usize,
    room: usize,
    calls: u64,
    failed: u64,
}

impl Model for MemSink {
    ghost use Rattle.std.specs.Prelude.{◌<◌, ◌≤◌, vec_len, vec_capacity};
    ghost use Rattle.io_ports.specs.Memory.{HeldBytes};

    ghost Value = { HeldBytes };

    ghost view = { λ s. record {
      taken = s.bytes.items;
      room = s.room;
      fail = s.fail.items;
      step = s.step;
      calls = s.calls;
      failed = s.failed;
    } };

    ghost invariant = { λ s. (0 < s.step) × (vec_len s.bytes ≤ s.room) × (s.room ≤ vec_capacity s.bytes) };
}

impl MemSink {
    /// An empty sink, for which `room` bytes are reserved. Its only refusal is want of memory.
    pub fn new(
        alloc: Global,
        room: usize,
        fail: Vec<u64>,
        step: usize,
    ) -> Result<MemSink, AllocError>
        requires { 0 < step }
        ensures { IfOk result (λ sink. sink ≡ record { taken = []; room = room; fail = fail.items; step = step; calls = 0; failed = 0 }) }
    {
        Ok(MemSink {
            bytes: Vec::with_capacity(alloc, room)?,
            fail,
            step,
            room,
            calls: 0,
            failed: 0,
        })
    }

    /// The bytes that it took. Takes no memory.
    pub fn taken(&self) -> &[u8]
        ensures { result.now ≡ self.now.taken }
    {
        &self.bytes
    }

    /// How many calls with bytes there were, the failed ones too. Takes no memory.
    pub fn calls(&self) -> u64
        ensures { result ≡ self.now.calls }
    {
        self.calls
    }
}

impl Sink for MemSink {
    ghost taken = { λ s. Some s.taken };

    ghost faults = { λ s. s.failed };

    fn write(&mut self, bytes: &[u8]) -> Result<usize, Failed>
        ensures some { IfOk result (λ n. TakesSome bytes.now n) }
        ensures appends { IfOk result (λ n. self.new.taken ≡ self.old.taken ++ take n bytes.now) }
        ensures empty { bytes.now ≡ [] → IsOkAnd result (λ n. n ≡ 0) }
        ensures kept { OnErr result (Some self.new.taken ≡ Some self.old.taken) }
        ensures later { self.old.failed ≤ self.new.failed }
        ensures failed { OnErr result (Rose self.old.failed self.new.failed) }

        ensures counted { self.new ≡ record self.old {
          taken = self.new.taken;
          calls = (if nat_eq (length bytes.now) 0 then self.old.calls else count_up self.old.calls);
          failed = faults_after (is_ok result) self.old.failed;
        } }
        ensures fails { 0 < length bytes.now
            → is_ok result ≡ (not (fails_at self.old.fail self.new.calls) && nat_lt 0 (room_left self.old)) }
        ensures takes { IfOk result (λ n. n ≡ taken_length bytes.now self.old.step (room_left self.old)) }
    {
        if bytes.is_empty() {
            return Ok(0);
        }
        self.calls = self.calls.saturating_add(1);
        let left = self.room - self.bytes.len();
        if left == 0 || self.fail.contains(&self.calls) {
            self.failed = self.failed.saturating_add(1);
            return Err(Failed);
        }
        let count = bytes.len().min(self.step).min(left);
        self.bytes.extend_from_slice(&bytes[..count]).unwrap();
        Ok(count)
    }
}

// The first text of this name.
fn text_of<'a>(files: &'a [(String, Vec<u8>)], name: &str) -> Option<&'a [u8]>
    ensures { MatchOption result (files_of (contents_of files.now) name.now ≡ None)
        (λ text. files_of (contents_of files.now) name.now ≡ Some text.now) }
{
    for (key, text) in files {
        if key.as_str() == name {
            return Some(text.as_slice());
        }
    }
    None
}

// As much of the text from `at` on as fits the buffer, at most `step` bytes.
fn take_piece(text: &[u8], at: u64, step: usize, buf: &mut [u8]) -> usize
    requires { 0 < step }
    ensures front { FillsFront buf.old buf.new result }
    ensures piece { PieceOf text.now at buf.new result }
    ensures gives { result ≡ piece_length text.now at step (length buf.old) }
{
    let at = at as usize;
    if at >= text.len() {
        return 0;
    }
    let count = (text.len() - at).min(step).min(buf.len());
    buf[..count].copy_from_slice(&text[at..at + count]);
    count
}
