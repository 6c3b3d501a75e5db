ghost use Rattle.std.specs.Prelude.{◌≡◌, ◌<◌, ◌^◌, length};
ghost use Rattle.program_text.specs.Letters.{letter_at, measurements, outcomes_of};

use crate::plan::{Command, Sign};

/// What a command does to the state of one word of outcomes, at a gap counted from 1.
///
/// A place is the number of a measurement in text order, from 0: there its outcome stands in the word. So a letter says
/// by itself which outcome it reads, whatever the order of the turns.
#[derive(Clone, Copy, PartialEq, Eq, Debug, Drop)]
pub enum Letter {
    /// An exchange.
    Crossing {
        gap: u8,
        sign: Sign,
    },
    /// A measurement of the charge, whose outcome stands at the place.
    Charge {
        gap: u8,
        place: u32,
    },
    /// An exchange on the words that have the label at the place.
    Tested {
        gap: u8,
        sign: Sign,
        place: u32,
        label: u8,
    },
    /// A raise, which no vector sees.
    Still {
        gap: u8,
    },
}

impl Command {
    /// How many outcomes this command has: one for a measurement.
    pub fn outcomes(self) -> u32
        ensures { result ≡ outcomes_of self }
    {
        match self {
            Command::Measure { .. } => 1,
            Command::Braid { .. } | Command::Raise { .. } | Command::BraidWhen { .. } => 0,
        }
    }

    /// The letter of this command, before which there are so many measurements in the text.
    pub fn letter(self, place: u32) -> Letter
        ensures { result ≡ letter_at place self }
    {
        match self {
            Command::Braid { gap, sign } => Letter::Crossing { gap, sign },
            Command::Raise { gap } => Letter::Still { gap },
            Command::Measure { gap } => Letter::Charge { gap, place },
            Command::BraidWhen {
                gap,
                sign,
                place,
                label,
            } => Letter::Tested {
                gap,
                sign,
                place,
                label,
            },
        }
    }
}

/// How many measurements there are.
pub fn count_measurements(commands: &[Command]) -> u32
    requires { length commands.now < 2 ^ 32 }
    ensures { result ≡ measurements commands.now }
{
    let mut count = 0;
    for command in commands {
        count += command.outcomes();
    }
    count
}
