// The texts of a command.
ghost use Rattle.std.specs.Prelude.{◌≡◌, ◌≤◌, IfOk, length, vec_len};
ghost use Rattle.anyon_app.specs.Work.{text_limit, text_work};
ghost use Rattle.anyon_app.specs.Stages.{Gives, Loads, Passes};
ghost use Rattle.anyon_app.specs.Make.{size_verdict};
ghost use Rattle.anyon_app.specs.Verdicts.{unless};
ghost use Rattle.anyon_app.specs.Refusals.{kind_word, too_long};

use crate::refusals::too_long;
use crate::stop::Stop;
use io_ports::{LoadFault, Shelf, load};
use std::alloc::Global;

/// What a text is read as.
#[derive(Clone, Copy, Debug, PartialEq, Eq)]
pub enum Kind {
    Category,
    SecondCategory,
    Program,
    SecondProgram,
    Schedule,
    Moves,
    Marks,
}

impl Kind {
    /// The word for such a text.
    pub fn word(self) -> &'static str
        ensures { result.now ≡ kind_word self }
    {
        match self {
            Kind::Category => "category",
            Kind::SecondCategory => "second category",
            Kind::Program => "program",
            Kind::SecondProgram => "second program",
            Kind::Schedule => "schedule",
            Kind::Moves => "moves",
            Kind::Marks => "marks",
        }
    }
}

// The most bytes of a text.
const TEXT_LIMIT: usize = 4_194_304;

/// The text of this name, unless it has more than 4,194,304 bytes.
pub fn text<S: Shelf>(alloc: Global, shelf: &mut S, kind: Kind, name: &str) -> Result<Vec<u8>, Stop>
    ensures passes { Passes S.files S.faults shelf.old shelf.new (λ text. text.items) (text_work (too_long kind) name.now) result }
    ensures short { IfOk result (λ text. vec_len text ≤ text_limit) }
{
    loaded(alloc, shelf, kind, name)
}

/// Refuses a text in hand of more than 4,194,304 bytes.
pub fn within_limit(alloc: Global, kind: Kind, text: &[u8]) -> Result<(), Stop>
    ensures gives { Gives (λ _. tt) result (unless (size_verdict kind text.now)) }
    ensures short { IfOk result (λ _. length text.now ≤ text_limit) }
{
    if text.len() > TEXT_LIMIT {
        return Err(too_long(alloc, kind));
    }
    Ok(())
}

fn loaded<S: Shelf>(alloc: Global, shelf: &mut S, kind: Kind, name: &str) -> Result<Vec<u8>, Stop>
    ensures { Loads S.files S.faults shelf.old shelf.new (too_long kind) name.now result }
{
    match load(alloc, shelf, name, TEXT_LIMIT) {
        Ok(text) => Ok(text),
        Err(LoadFault::TooLong) => Err(too_long(alloc, kind)),
        Err(LoadFault::Failed) => Err(Stop::Unread),
        Err(LoadFault::Memory) => Err(Stop::Memory),
    }
}
