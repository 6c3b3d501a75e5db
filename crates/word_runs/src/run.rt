//! The turns of letters, one after another, and those of commands in the order of the text.

ghost use Rattle.std.specs.Prelude.{◌≡◌, ◌<◌, ◌^◌, ℕ, length, IfOk, OnOk, replicate};
ghost use Rattle.std.specs.List.{AllByRecursion};
ghost use Rattle.program_text.specs.Letters.{IsTestOf, gap_of, letters, measurements};
ghost use Rattle.word_runs.specs.Told.{IsGap};
ghost use Rattle.word_runs.specs.Runs.{run_of, start_word, Runs, Leaves};
ghost use Rattle.word_runs.specs.Lives.{lives_of, AreOf, AreAlike, IsFit};

use crate::engine::Engine;
use crate::fault::RunFault;
use crate::live::{LiveWord, push_live};
use crate::turn::run_turn;
use program_text::{Command, Letter, count_measurements};
use std::alloc::{AllocError, Global};

/// A word without outcomes.
fn zeros(alloc: Global, places: u32) -> Result<Vec<u8>, AllocError>
    ensures { IfOk result (λ word. word.items ≡ replicate places 0) }
{
    let mut word = Vec::new(alloc);
    for _i in 0..places {
        word.push(0)?;
    }
    Ok(word)
}

/// One live word without outcomes.
fn one_word<E: Engine>(
    alloc: Global,
    engine: &E,
    places: u32,
    state: E::State,
) -> Result<Vec<LiveWord<E::State>>, AllocError>
    requires { E.Of engine.now state }
    ensures of { IfOk result (λ live. AreOf (E.Of engine.now) live.items) }
    ensures value { IfOk result (λ live. lives_of (E.seen engine.now) live.items ≡ start_word places (E.seen engine.now state)) }
{
    let word = zeros(alloc, places)?;
    let mut live = Vec::new(alloc);
    push_live(&mut live, LiveWord { word, state })?;
    Ok(live)
}

/// The letters of commands, in the order of the text.
fn text_letters(alloc: Global, commands: &[Command]) -> Result<Vec<Letter>, AllocError>
    requires { length commands.now < 2 ^ 31 }
    ensures { IfOk result (λ ls. ls.items ≡ letters 0 commands.now) }
{
    let mut letters = Vec::new(alloc);
    let mut place = 0;
    for command in commands {
        letters.push(command.letter(place))?;
        place += command.outcomes();
    }
    Ok(letters)
}

/// The turns of letters, the first of which has the number 1.
fn run_turns<E: Engine>(
    alloc: Global,
    engine: &E,
    letters: &[Letter],
    live: &mut Vec<LiveWord<E::State>>,
) -> Result<(), RunFault>
    requires of { AreOf (E.Of engine.now) live.old.items }
    requires alike { (m : ℕ) × AreAlike (E.told engine.now) m (lives_of (E.seen engine.now) live.old.items) × AllByRecursion (IsFit (E.told engine.now) m) letters.now }
    requires few { length letters.now < 2 ^ 31 }
    ensures of { OnOk result (AreOf (E.Of engine.now) live.new.items) }
    ensures stated { Leaves (lives_of (E.seen engine.now) live.new.items) result (run_of (E.told engine.now) 1 letters.now (lives_of (E.seen engine.now) live.old.items)) }
{
    let mut turn = 1;
    for letter in letters {
        run_turn(alloc, engine, live, *letter, turn)?;
        turn += 1;
    }
    Ok(())
}

/// The live words at the end of a run of letters, one after another, from one state, in the order in which they are made.
///
/// A word has so many places, one for each measurement in text order, and has the label 0 where none was made. Each letter
/// is a turn, counted from 1, at a gap of the strands, and reads or writes one of the places. The run stops exactly where
/// the stated evaluation does: `Overflow` where an item of a step doesn't fit in one of the live words, else `Branches`
/// where more than [`WORD_LIMIT`](crate::WORD_LIMIT) words are live after it, else `Wide` where more than
/// [`AMPLITUDE_LIMIT`](crate::AMPLITUDE_LIMIT) amplitudes stand over all of them.
pub fn run_letters<E: Engine>(
    alloc: Global,
    engine: &E,
    letters: &[Letter],
    places: u32,
    start: E::State,
) -> Result<Vec<LiveWord<E::State>>, RunFault>
    requires of { E.Of engine.now start }
    requires fit { AllByRecursion (IsFit (E.told engine.now) places) letters.now }
    requires few { length letters.now < 2 ^ 31 }
    ensures of { IfOk result (λ ends. AreOf (E.Of engine.now) ends.items) }
    // It stops exactly where the stated evaluation does.
    ensures stated { Runs (λ ends. lives_of (E.seen engine.now) ends.items) result
        (run_of (E.told engine.now) 1 letters.now (start_word places (E.seen engine.now start))) }
{
    let mut live = one_word(alloc, engine, places, start)?;
    run_turns(alloc, engine, letters, &mut live)?;
    Ok(live)
}

/// The live words at the end of a run of commands in the order of the text: [`run_letters`] over their letters, with a
/// place for each measurement. A command with a test speaks of one of these.
pub fn run_commands<E: Engine>(
    alloc: Global,
    engine: &E,
    commands: &[Command],
    start: E::State,
) -> Result<Vec<LiveWord<E::State>>, RunFault>
    requires of { E.Of engine.now start }
    requires gaps { AllByRecursion (λ l. IsGap (E.told engine.now) (gap_of l)) (letters 0 commands.now) }
    requires tests { AllByRecursion (IsTestOf (measurements commands.now)) commands.now }
    requires few { length commands.now < 2 ^ 31 }
    ensures of { IfOk result (λ ends. AreOf (E.Of engine.now) ends.items) }
    // It stops exactly where the stated evaluation does.
    ensures stated { Runs (λ ends. lives_of (E.seen engine.now) ends.items) result
        (run_of (E.told engine.now) 1 (letters 0 commands.now) (start_word (measurements commands.now) (E.seen engine.now start))) }
{
    let letters = text_letters(alloc, commands)?;
    run_letters(alloc, engine, &letters, count_measurements(commands), start)
}
