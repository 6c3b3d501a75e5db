// A shelf: texts by name, which are read a piece at a time.
ghost use Rattle.std.specs.Prelude.{◌≡◌, ◌≤◌, List, ℕ, Option, IfOk, OnErr};
ghost use Rattle.io_ports.specs.Ports.{Files, Rose, FillsFront, GivesPiece};

/// One call of a shelf or a sink failed, and its count of faults says so.
#[derive(Clone, Copy, Debug, PartialEq, Eq)]
pub struct Failed;

/// Texts by name. A shelf may tell its map from names to texts, which no call changes, and it has
/// for each name a count of faults, which never falls. A call may raise the counts of other names
/// too.
pub trait Shelf {
    /// The map from names to texts, where the shelf tells it.
    ghost files: { Self → Option Files };

    /// How many faults there were at a name. The count stands still at `u64::MAX`.
    ghost faults: { Self → List ℕ → ℕ };

    /// Reads the text of this name from byte `at` on into the front of `buf`, and says how many
    /// bytes were read. The rest of `buf` is unchanged. For a `buf` that isn't empty, `Ok(0)` means
    /// that the text ends at or before `at`.
    ///
    /// `Failed` comes only where the count of this name rose in this call, or stands at its last
    /// value. A name that isn't there is `Failed`. Behind it `buf` is unchanged.
    fn read(&mut self, name: &str, at: u64, buf: &mut [u8]) -> Result<usize, Failed>
        ensures front { IfOk result (λ n. FillsFront buf.old buf.new n) }
        ensures piece { IfOk result (λ n. GivesPiece (files self.old) name.now at buf.new n) }
        ensures kept { files self.new ≡ files self.old }
        ensures later { (other : List ℕ) → faults self.old other ≤ faults self.new other }
        ensures failed { OnErr result (Rose (faults self.old name.now) (faults self.new name.now)) }
        ensures unfilled { OnErr result (buf.new ≡ buf.old) };
}
