// All bytes into a sink.
ghost use Rattle.std.specs.Prelude.{◌≡◌, ◌≤◌, [], List, ℕ, take, OnOk, OnErr};
ghost use Rattle.std.specs.Io.KnownBytes.{Appends};
ghost use Rattle.io_ports.specs.Ports.{Rose};

use crate::Sink;

/// The sink failed before it took all bytes.
#[derive(Clone, Copy, Debug, PartialEq, Eq)]
pub struct SinkFailed;

/// Writes all bytes in order. No bytes make no call of the sink. Takes no memory.
///
/// `SinkFailed` comes only where the sink's count rose in this call, or stands at its last value.
/// The sink has then taken a prefix of the bytes.
pub fn put_all<W: Sink>(sink: &mut W, bytes: &[u8]) -> Result<(), SinkFailed>
    ensures all { OnOk result (Appends (W.taken sink.old) (W.taken sink.new) bytes.now) }
    ensures prefix { OnErr result ((n : ℕ) × Appends (W.taken sink.old) (W.taken sink.new) (take n bytes.now)) }
    ensures failed { OnErr result (Rose (W.faults sink.old) (W.faults sink.new)) }
    ensures later { W.faults sink.old ≤ W.faults sink.new }
    ensures none { bytes.now ≡ [] → sink.new ≡ sink.old }
{
    let mut done = 0;
    while done < bytes.len() {
        match sink.write(&bytes[done..]) {
            Ok(count) => done += count,
            Err(_) => return Err(SinkFailed),
        }
    }
    Ok(())
}
