//! Why a step or a run stops.

ghost use Rattle.std.specs.Prelude.{◌≡◌};

use ring_laws::Overflow;
use std::alloc::AllocError;

/// Why a step of an engine stops.
#[derive(Clone, Copy, Debug, PartialEq, Eq, Drop)]
pub enum StepFault {
    /// An item doesn't fit.
    TooLarge,
    /// Memory ran out.
    Memory,
}

/// Where the stated evaluation of a run stops. Each command is a turn, counted from 1.
#[derive(Clone, Copy, Debug, PartialEq, Eq, Drop)]
pub enum RunStop {
    /// An item of this turn doesn't fit. Turn 0 evaluates the total, and the turn after the last command evaluates
    /// the weights of the words.
    Overflow { turn: u32 },
    /// More than [`WORD_LIMIT`](crate::WORD_LIMIT) words are live after a step of this turn.
    Branches { turn: u32, count: u32 },
    /// More than [`AMPLITUDE_LIMIT`](crate::AMPLITUDE_LIMIT) amplitudes stand over all live words after a step of
    /// this turn.
    Wide { turn: u32, entries: u32 },
}

/// Why a run ends before its rows.
#[derive(Clone, Copy, Debug, PartialEq, Eq, Drop)]
pub enum RunFault {
    /// The stated evaluation stops here.
    Stop(RunStop),
    /// Memory ran out.
    Memory,
}

impl StepFault {
    /// What a step that stops in a turn says of the run.
    pub fn in_turn(self, turn: u32) -> RunFault
        ensures too_large { self ≡ StepFault.TooLarge → result ≡ RunFault.Stop (RunStop.Overflow turn) }
        ensures memory { self ≡ StepFault.Memory → result ≡ RunFault.Memory }
    {
        match self {
            StepFault::TooLarge => RunFault::Stop(RunStop::Overflow { turn }),
            StepFault::Memory => RunFault::Memory,
        }
    }
}

impl From<Overflow> for StepFault {
    ghost use Rattle.std.specs.Prelude.{◌≡◌};
    ghost use Rattle.word_runs.specs.declared.fault.StepFault.TheVariants.{TooLarge};

    ghost from_gives = { λ _ e. e ≡ TooLarge };

    fn from(_fault: Overflow) -> Self {
        StepFault::TooLarge
    }
}

impl From<AllocError> for StepFault {
    ghost use Rattle.std.specs.Prelude.{◌≡◌};
    ghost use Rattle.word_runs.specs.declared.fault.StepFault.TheVariants.{Memory};

    ghost from_gives = { λ _ e. e ≡ Memory };

    fn from(_fault: AllocError) -> Self {
        StepFault::Memory
    }
}

impl From<AllocError> for RunFault {
    ghost use Rattle.std.specs.Prelude.{◌≡◌};
    ghost use Rattle.word_runs.specs.declared.fault.RunFault.TheVariants.{Memory};

    ghost from_gives = { λ _ e. e ≡ Memory };

    fn from(_fault: AllocError) -> Self {
        RunFault::Memory
    }
}
