ghost use Rattle.std.specs.Prelude.{◌≡◌};
ghost use Rattle.site_schedule.specs.declared.fault.ScheduleFault.TheVariants.{Line, Memory};

use line_text::LineFault;
use std::alloc::AllocError;

/// The first fault of a schedule text, or want of memory. Turns are counted from 1.
#[derive(Clone, Copy, Debug, PartialEq, Eq)]
pub enum ScheduleFault {
    /// A line is too long, or not ASCII.
    Line(LineFault),
    /// The first line isn't `schedule 1`; where the text ends before it, the number of its lines plus one.
    Header { line: u32 },
    /// No site has the name.
    UnknownSite { turn: u32 },
    /// The site has no command left.
    TooMany { turn: u32 },
    /// The site's next command tests an outcome that no turn before measures.
    Early { turn: u32 },
    /// The text ends, and this is the first site with a command left, counted from 0.
    Unfinished { site: u8 },
    Memory,
}

impl From<LineFault> for ScheduleFault {
    ghost from_gives = { λ f e. e ≡ Line f };

    fn from(fault: LineFault) -> ScheduleFault {
        ScheduleFault::Line(fault)
    }
}

impl From<AllocError> for ScheduleFault {
    ghost from_gives = { λ a e. e ≡ Memory };

    fn from(_error: AllocError) -> ScheduleFault {
        ScheduleFault::Memory
    }
}
