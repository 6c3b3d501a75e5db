ghost use Rattle.std.specs.Prelude.{◌≡◌};
ghost use Rattle.word_moves.specs.Moves.{place_of};

use program_text::Sign;

/// A change of braid letters, at a place counted from 1.
#[derive(Clone, Copy, PartialEq, Eq, Debug, Drop)]
pub enum BraidMove {
    /// A braid and its inverse behind it go.
    Cancel { place: u32 },
    /// A braid of the sign at the gap comes, and its inverse behind it.
    Insert { place: u32, gap: u32, sign: Sign },
    /// Two braids with a gap between theirs change places.
    Far { place: u32 },
    /// Of three braids of one sign at neighbouring gaps, the first and the third at one of them, all change to the other.
    Yb { place: u32 },
}

impl BraidMove {
    pub(crate) fn place(self) -> u32
        ensures { result ≡ place_of self }
    {
        match self {
            BraidMove::Cancel { place }
            | BraidMove::Insert { place, .. }
            | BraidMove::Far { place }
            | BraidMove::Yb { place } => place,
        }
    }
}

/// Moves in their order.
#[derive(Drop)]
pub struct Moves {
    pub list: Vec<BraidMove>,
}

/// Whether moves lead from one program to another.
#[derive(Clone, Copy, PartialEq, Eq, Debug, Drop)]
pub enum Verdict {
    /// They do.
    Linked,
    /// The start trees or their labels differ.
    StartDiffers,
    /// The first move that isn't possible, counted from 1.
    NoMove { number: u32 },
    /// The first place, counted from 1, at which the letters differ behind all moves; a missing letter differs.
    EndDiffers { place: u32 },
}
