ghost use Rattle.std.specs.Prelude.{◌≡◌};
ghost use Rattle.category_text.specs.Answers.{told_at, lined_at};
ghost use Rattle.category_text.specs.declared.fault.CategoryFault.TheVariants.{At};
ghost use Rattle.category_text.specs.declared.fault.Stop.{Stop};
ghost use Rattle.category_text.specs.declared.fault.Stop.TheVariants.{Cause};

use cyclo_text::NumberWord;
use line_text::{LineCause, LineFault};
use std::alloc::AllocError;

/// Why a line of a category text is refused. Of several causes at one line the first in the order of the line's kind
/// counts.
#[derive(Clone, Copy, Debug, PartialEq, Eq)]
pub enum CategoryCause {
    /// The line is too long, or not ASCII.
    Line(LineCause),
    /// The first line isn't `category 1` or `category 2`.
    Header,
    /// The second line isn't `root` and an accepted root.
    Root,
    /// The third line isn't `labels` and names of 1 to 8 letters, digits and `_`.
    Labels,
    /// There are more than 12 names.
    Limit,
    /// A name stands twice, or a triple, a symbol or a mark was given before.
    Repeated,
    /// A line of the head behind the head, or a fuse line behind a symbol line.
    Misplaced,
    /// The first word is none of `fuse`, `f`, `r`, `w`, `v`, and in version 2 none of `twist`, `loop` either.
    Word,
    /// There are too few words.
    Short,
    /// There are too many words.
    Long,
    /// A label has no name in the third line.
    UnknownLabel,
    /// The first or the second label of a fuse line is the unit.
    UnitFuse,
    /// The index of a symbol line isn't admissible by the fuse lines.
    NotAdmissible,
    /// The number of a symbol line or of a mark's line is refused.
    Number(NumberWord),
}

/// The first line that is refused, with its first cause, or want of memory.
#[derive(Clone, Copy, Debug, PartialEq, Eq)]
pub enum CategoryFault {
    /// A line counted from 1; where the text ends before a line of the head, the number of its lines plus one.
    At { line: u32, cause: CategoryCause },
    Memory,
}

/// The first line that is refused, with its first cause, as functions tell it that take no memory.
#[derive(Clone, Copy, Debug, PartialEq, Eq)]
pub(crate) struct Refused {
    pub line: u32,
    pub cause: CategoryCause,
}

/// Why the reading of a line stops that is kept in memory.
#[derive(Clone, Copy, Debug, PartialEq, Eq)]
pub(crate) enum Stop {
    Cause(CategoryCause),
    Memory,
}

impl From<LineFault> for Refused {
    ghost use Rattle.category_text.specs.Answers.{refused_line};

    ghost from_gives = { λ f r. r ≡ refused_line f };

    fn from(fault: LineFault) -> Refused {
        Refused {
            line: fault.line,
            cause: CategoryCause::Line(fault.cause),
        }
    }
}

impl From<Refused> for CategoryFault {
    ghost from_gives = { λ r e. e ≡ At r.line r.cause };

    fn from(refused: Refused) -> CategoryFault {
        CategoryFault::At {
            line: refused.line,
            cause: refused.cause,
        }
    }
}

impl From<CategoryCause> for Stop {
    ghost from_gives = { λ c e. e ≡ Cause c };

    fn from(cause: CategoryCause) -> Stop {
        Stop::Cause(cause)
    }
}

impl From<AllocError> for Stop {
    ghost from_gives = { λ a e. e ≡ Stop.Memory };

    fn from(_error: AllocError) -> Stop {
        Stop::Memory
    }
}

/// A cause, as the fault of a line.
pub(crate) fn on_line<T>(line: u32, read: Result<T, CategoryCause>) -> Result<T, Refused>
    ensures { result ≡ lined_at line read }
{
    match read {
        Ok(value) => Ok(value),
        Err(cause) => Err(Refused { line, cause }),
    }
}

/// What stops the reading of a line, as the fault of the text.
pub(crate) fn stop_on_line<T>(line: u32, read: Result<T, Stop>) -> Result<T, CategoryFault>
    ensures { result ≡ told_at line read }
{
    match read {
        Ok(value) => Ok(value),
        Err(Stop::Cause(cause)) => Err(CategoryFault::At { line, cause }),
        Err(Stop::Memory) => Err(CategoryFault::Memory),
    }
}
