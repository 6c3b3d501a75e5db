//! The letters of a program.

ghost use Rattle.std.specs.Prelude.{◌≡◌, ◌≤◌, ◌+◌, ◌++◌, length, IfOk};
ghost use Rattle.program_text.specs.Letters.{letters as letters_from, measurements};
ghost use Rattle.program_text.specs.Program.{program_of};
ghost use Rattle.program_text.specs.WellFormed.{commands_in};
ghost use Rattle.program_text.specs.declared.form.TheConstants.{COMMAND_LIMIT};
ghost use Rattle.word_moves.specs.Moves.{is_still, moving, moving_letters};

use crate::push::push;
use program_text::{Command, Letter, Plan};
use std::alloc::{AllocError, Global};

/// The letters of a program without its raises, in the order of the text.
pub(crate) fn moving_letters(alloc: Global, plan: &Plan) -> Result<Vec<Letter>, AllocError>
    requires { length (commands_in (program_of plan.now).sites) ≤ COMMAND_LIMIT }
    ensures letters { IfOk result (λ letters. letters.items ≡ moving_letters (program_of plan.now)) }
    ensures few { IfOk result (λ letters. length letters.items ≤ COMMAND_LIMIT) }
{
    let mut letters = Vec::new(alloc);
    let mut place = 0;
    for site in &plan.sites {
        place = push_letters(&site.commands, place, &mut letters)?;
    }
    Ok(letters)
}

/// Appends the letters of commands before which so many measurements stand, and counts the measurements up to their end.
fn push_letters(
    commands: &[Command],
    before: u32,
    letters: &mut Vec<Letter>,
) -> Result<u32, AllocError>
    requires { before + length commands.now ≤ COMMAND_LIMIT }
    ensures letters { IfOk result (λ _. letters.new.items ≡ letters.old.items ++ moving (letters_from before commands.now)) }
    ensures place { IfOk result (λ place. place ≡ before + measurements commands.now) }
{
    let mut place = before;
    for command in commands {
        let letter = command.letter(place);
        if !is_still(letter) {
            push(letters, letter)?;
        }
        place += command.outcomes();
    }
    Ok(place)
}

fn is_still(letter: Letter) -> bool
    ensures { result ≡ is_still letter }
{
    match letter {
        Letter::Still { .. } => true,
        Letter::Crossing { .. } | Letter::Charge { .. } | Letter::Tested { .. } => false,
    }
}
