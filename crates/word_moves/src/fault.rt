ghost use Rattle.std.specs.Prelude.{◌≡◌};
ghost use Rattle.word_moves.specs.declared.fault.MovesFault.TheVariants.{At, Memory};

use line_text::{LineCause, LineFault};
use std::alloc::AllocError;

/// Why a line of a moves text is refused. Of several causes at one line the first in this order counts.
#[derive(Clone, Copy, Debug, PartialEq, Eq)]
pub enum MovesCause {
    /// The line is too long, or not ASCII.
    Line(LineCause),
    /// The first line isn't `moves 1`.
    Header,
    /// The line isn't of the form `cancel P`, `insert P K SIGN`, `far P` or `yb P`, where the sign is `+` or `-`.
    Command,
    /// A place or a gap isn't `0`, or a digit from 1 to 9 and further digits, nine digits at most.
    Place,
}

/// The first line that is refused, with its first cause, or want of memory.
#[derive(Clone, Copy, Debug, PartialEq, Eq)]
pub enum MovesFault {
    /// A line counted from 1; where the text ends before its first line, the number of its lines plus one.
    At { line: u32, cause: MovesCause },
    Memory,
}

impl From<LineFault> for MovesFault {
    ghost use Rattle.word_moves.specs.declared.fault.MovesCause.TheVariants.{Line};

    ghost from_gives = { λ f e. e ≡ At f.line (Line f.cause) };

    fn from(fault: LineFault) -> MovesFault {
        MovesFault::At {
            line: fault.line,
            cause: MovesCause::Line(fault.cause),
        }
    }
}

impl From<AllocError> for MovesFault {
    ghost from_gives = { λ a e. e ≡ Memory };

    fn from(_error: AllocError) -> MovesFault {
        MovesFault::Memory
    }
}
