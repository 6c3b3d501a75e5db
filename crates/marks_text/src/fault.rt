ghost use Rattle.std.specs.Prelude.{◌≡◌};
ghost use Rattle.marks_text.specs.declared.fault.MarksFault.TheVariants.{At, Memory};

use cyclo_text::NumberWord;
use line_text::{LineCause, LineFault};
use std::alloc::AllocError;

/// Why a line of a marks text is refused. Of several causes at one line the first in this order counts.
#[derive(Clone, Copy, Debug, PartialEq, Eq)]
pub enum MarksCause {
    /// The line is too long, or not ASCII.
    Line(LineCause),
    /// The first line isn't `marks 1`.
    Header,
    /// The first word is neither `twist` nor `loop`.
    Word,
    /// There are fewer than three words.
    Short,
    /// There are more than three words.
    Long,
    /// The second word names no label.
    UnknownLabel,
    /// The label's mark of this kind was given before.
    Repeated,
    /// The third word is no number of the category's root.
    Number(NumberWord),
}

/// The first line that is refused, with its first cause, or want of memory.
#[derive(Clone, Copy, Debug, PartialEq, Eq)]
pub enum MarksFault {
    /// A line counted from 1; where the text ends before its first line, the number of its lines plus one.
    At { line: u32, cause: MarksCause },
    Memory,
}

impl From<LineFault> for MarksFault {
    ghost use Rattle.marks_text.specs.declared.fault.MarksCause.TheVariants.{Line};

    ghost from_gives = { λ f e. e ≡ At f.line (Line f.cause) };

    fn from(fault: LineFault) -> MarksFault {
        MarksFault::At {
            line: fault.line,
            cause: MarksCause::Line(fault.cause),
        }
    }
}

impl From<AllocError> for MarksFault {
    ghost from_gives = { λ a e. e ≡ Memory };

    fn from(_error: AllocError) -> MarksFault {
        MarksFault::Memory
    }
}
