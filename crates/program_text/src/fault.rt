ghost use Rattle.std.specs.Prelude.{◌≡◌};
ghost use Rattle.program_text.specs.Answers.{told_at, lined_at};
ghost use Rattle.program_text.specs.Steps.{unless};
ghost use Rattle.program_text.specs.declared.fault.ProgramFault.TheVariants.{At};
ghost use Rattle.program_text.specs.declared.fault.Stop.{Stop};
ghost use Rattle.program_text.specs.declared.fault.Stop.TheVariants.{Cause};

use line_text::{LineCause, LineFault};
use std::alloc::AllocError;

/// Why a line of a program text is refused. Of several causes at one line the first in the order of the line's kind
/// counts.
#[derive(Clone, Copy, Debug, PartialEq, Eq)]
pub enum ProgramCause {
    /// The line is too long, or not ASCII.
    Line(LineCause),
    /// The first line isn't `program 1` or `program 2`.
    Header,
    /// The second line isn't `start` and a tree.
    Start,
    /// A label has no name in the category.
    UnknownLabel,
    /// The start has not 2 to 24 strands.
    Strands,
    /// A node of the start isn't admissible; the least gap of such a node.
    Inadmissible(u8),
    /// A site line isn't `site NAME FIRST LAST` with a new name of 1 to 8 letters, digits and `_` and strands of the
    /// start that no earlier site has, or a command stands before the first one.
    Site,
    /// A line behind the start is neither a site line nor a command of the version.
    Command,
    /// The gap isn't between two strands of the current site.
    Gap,
    /// The name of an outcome isn't 1 to 8 letters, digits and `_`, or was given before.
    Name,
    /// A test speaks of an outcome that no earlier line named.
    Unnamed,
    /// The strands that a braid with a test exchanges have different labels.
    Unlike,
    /// There are more than 4,096 commands.
    Limit,
}

/// The first line that is refused, with its first cause, or want of memory.
#[derive(Clone, Copy, Debug, PartialEq, Eq)]
pub enum ProgramFault {
    /// A line counted from 1; where the text ends before one of the first two lines, the number of its lines plus one.
    At { line: u32, cause: ProgramCause },
    Memory,
}

/// The first line that is refused, with its first cause, as functions tell it that take no memory.
#[derive(Clone, Copy, Debug, PartialEq, Eq)]
pub(crate) struct Refused {
    pub line: u32,
    pub cause: ProgramCause,
}

/// Why the reading of a line stops that is kept in memory.
#[derive(Clone, Copy, Debug, PartialEq, Eq)]
pub(crate) enum Stop {
    Cause(ProgramCause),
    Memory,
}

impl From<LineFault> for Refused {
    ghost use Rattle.program_text.specs.Answers.{refused_line};

    ghost from_gives = { λ f r. r ≡ refused_line f };

    fn from(fault: LineFault) -> Refused {
        Refused {
            line: fault.line,
            cause: ProgramCause::Line(fault.cause),
        }
    }
}

impl From<Refused> for ProgramFault {
    ghost from_gives = { λ r e. e ≡ At r.line r.cause };

    fn from(refused: Refused) -> ProgramFault {
        ProgramFault::At {
            line: refused.line,
            cause: refused.cause,
        }
    }
}

impl From<LineFault> for ProgramFault {
    ghost use Rattle.program_text.specs.declared.fault.ProgramCause.TheVariants.{Line};

    ghost from_gives = { λ f e. e ≡ At f.line (Line f.cause) };

    fn from(fault: LineFault) -> ProgramFault {
        ProgramFault::At {
            line: fault.line,
            cause: ProgramCause::Line(fault.cause),
        }
    }
}

impl From<ProgramCause> for Stop {
    ghost from_gives = { λ c e. e ≡ Cause c };

    fn from(cause: ProgramCause) -> Stop {
        Stop::Cause(cause)
    }
}

impl From<AllocError> for Stop {
    ghost from_gives = { λ a e. e ≡ Stop.Memory };

    fn from(_error: AllocError) -> Stop {
        Stop::Memory
    }
}

impl From<AllocError> for ProgramFault {
    ghost use Rattle.program_text.specs.declared.fault.ProgramFault.TheVariants.{Memory};

    ghost from_gives = { λ a e. e ≡ Memory };

    fn from(_error: AllocError) -> ProgramFault {
        ProgramFault::Memory
    }
}

/// A cause, as the fault of a line.
pub(crate) fn on_line<T>(line: u32, read: Result<T, ProgramCause>) -> Result<T, Refused>
    ensures { result ≡ lined_at line read }
{
    match read {
        Ok(value) => Ok(value),
        Err(cause) => Err(Refused { line, cause }),
    }
}

/// What stops the reading of a line, as the fault of the text.
pub(crate) fn stop_on_line<T>(line: u32, read: Result<T, Stop>) -> Result<T, ProgramFault>
    ensures { result ≡ told_at line read }
{
    match read {
        Ok(value) => Ok(value),
        Err(Stop::Cause(cause)) => Err(ProgramFault::At { line, cause }),
        Err(Stop::Memory) => Err(ProgramFault::Memory),
    }
}

/// A cause, unless a test holds.
pub(crate) fn unless(holds: bool, cause: ProgramCause) -> Result<(), ProgramCause>
    ensures { result ≡ unless holds cause }
{
    if holds { Ok(()) } else { Err(cause) }
}
