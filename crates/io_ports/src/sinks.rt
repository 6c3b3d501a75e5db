// A sink, which takes bytes.
ghost use Rattle.std.specs.Prelude.{◌≡◌, ◌≤◌, List, ℕ, Option, [], take, IfOk, OnErr, IsOkAnd};
ghost use Rattle.std.specs.Io.KnownBytes.{Appends};
ghost use Rattle.io_ports.specs.Ports.{Rose, TakesSome};

use crate::Failed;

/// Takes bytes. A sink may tell what it took, and it has a count of faults, which never falls.
pub trait Sink {
    /// The bytes that it took so far, where the sink tells them.
    ghost taken: { Self → Option (List ℕ) };

    /// How many faults there were. The count stands still at `u64::MAX`.
    ghost faults: { Self → ℕ };

    /// Takes the first of these bytes, and says how many: at least one where there are any, and
    /// `Ok(0)` for no bytes.
    ///
    /// `Failed` comes only where the count rose in this call, or stands at its last value. Nothing
    /// is taken then.
    fn write(&mut self, bytes: &[u8]) -> Result<usize, Failed>
        ensures some { IfOk result (λ n. TakesSome bytes.now n) }
        ensures appends { IfOk result (λ n. Appends (taken self.old) (taken self.new) (take n bytes.now)) }
        ensures empty { bytes.now ≡ [] → IsOkAnd result (λ n. n ≡ 0) }
        ensures kept { OnErr result (taken self.new ≡ taken self.old) }
        ensures later { faults self.old ≤ faults self.new }
        ensures failed { OnErr result (Rose (faults self.old) (faults self.new)) };
}
