//! The places of the measurements among the turns so far, each with a mark.

ghost use Rattle.std.specs.Prelude.{◌≡◌, ◌<◌, ◌∷◌, [], ◌||◌, ◌==◌, ℕ, List, Bool, true, false, get_or, length, OnOk};
ghost use Rattle.run_laws.specs.Timely.{known_after};
ghost use Rattle.site_schedule.specs.Queues.{AreMarks};
ghost use Rattle.site_schedule.specs.Reading.{may_follow};

use crate::push::push;
use program_text::Letter;
use std::alloc::AllocError;

/// Whether the outcome that a letter tests is marked, if it tests one.
pub(crate) fn may_follow(marks: &[bool], letter: Letter) -> bool
    ensures { (known : List ℕ) → AreMarks marks.now known → result ≡ may_follow known letter }
{
    match letter {
        Letter::Tested { place, .. } => is_marked(marks, place),
        Letter::Crossing { .. } | Letter::Charge { .. } | Letter::Still { .. } => true,
    }
}

fn is_marked(marks: &[bool], place: u32) -> bool
    ensures { result ≡ get_or marks.now place false }
{
    let place = place as usize;
    place < marks.len() && marks[place]
}

/// Marks the place that a letter measures, if it does.
pub(crate) fn mark_letter(marks: &mut Vec<bool>, letter: Letter) -> Result<(), AllocError>
    ensures { OnOk result ((known : List ℕ) → AreMarks marks.old.items known → AreMarks marks.new.items (known_after known (letter ∷ []))) }
{
    match letter {
        Letter::Charge { place, .. } => mark(marks, place as usize),
        Letter::Crossing { .. } | Letter::Tested { .. } | Letter::Still { .. } => Ok(()),
    }
}

fn mark(marks: &mut Vec<bool>, place: usize) -> Result<(), AllocError>
    ensures { OnOk result ((other : ℕ) → get_or marks.new.items other false ≡ ((place == other) || get_or marks.old.items other false)) }
{
    reach(marks, place)?;
    marks[place] = true;
    Ok(())
}

/// Adds places without a mark, up to this one.
fn reach(marks: &mut Vec<bool>, place: usize) -> Result<(), AllocError>
    ensures place { OnOk result (place < length marks.new.items) }
    ensures same { OnOk result ((other : ℕ) → get_or marks.new.items other false ≡ get_or marks.old.items other false) }
{
    while marks.len() <= place {
        push(marks, false)?;
    }
    Ok(())
}
