//! The text of the schedule.

ghost use Rattle.std.specs.Prelude.{◌≡◌, IfOk};
ghost use Rattle.line_text.specs.Spelling.{spelled};
ghost use Rattle.line_text.specs.Writing.{Extends};
ghost use Rattle.category_maker.specs.MadeSchedule.{made_schedule, schedule_lines, turn_lines};

use crate::commands::COMMANDS;
use line_text::write_line;
use std::alloc::{AllocError, Global};

/// The text of the schedule.
#[tactic(auto, unfolding(crate::specs::MadeSchedule::made_schedule))]
pub(crate) fn schedule_text(alloc: Global) -> Result<Vec<u8>, AllocError>
    ensures { IfOk result (λ text. text.items ≡ made_schedule) }
{
    let mut text = Vec::new(alloc);
    write_schedule(COMMANDS, &mut text)?;
    Ok(text)
}

/// Appends the header and so many rounds.
#[tactic(auto, using(line_text::proofs::WritingLemmas::still_in_front))]
fn write_schedule(rounds: u32, text: &mut Vec<u8>) -> Result<(), AllocError>
    ensures { Extends result text.old.items text.new.items (spelled (schedule_lines rounds)) }
{
    write_line(&["schedule", "1"], text)?;
    write_rounds(rounds, text)?;
    Ok(())
}

/// Appends so many lines, each with both sites.
#[tactic(auto, using(line_text::proofs::WritingLemmas::still_in_front, line_text::proofs::WritingLemmas::in_front))]
fn write_rounds(rounds: u32, text: &mut Vec<u8>) -> Result<(), AllocError>
    ensures { Extends result text.old.items text.new.items (spelled (turn_lines rounds)) }
{
    for _round in 0..rounds {
        write_line(&["A", "B"], text)?;
    }
    Ok(())
}
