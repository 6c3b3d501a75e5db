//! Rows, and the total before them.

ghost use Rattle.std.specs.Prelude.{◌≡◌, ◌+◌, ◌<◌, ◌^◌, ◌++◌, [], ◌∷◌, Option, Some, None, IsTrue, IfOk, OnOk, IsErrOf};
ghost use Rattle.word_runs.specs.Runs.{Runs, fitting};
ghost use Rattle.word_runs.specs.Lives.{AreOf, lives_of};
ghost use Rattle.outcome_rows.specs.Commands.{AreRunnable};
ghost use Rattle.outcome_rows.specs.Evaluated.{AreWeights, evaluation_of, row_added, rows_at, rows_from};
ghost use Rattle.outcome_rows.specs.Rows.{outcomes_in, rows_of};

use program_text::Command;
use ring_laws::{Overflow, StarRing, is_zero};
use std::alloc::{AllocError, Global};
use word_runs::{Engine, LiveWord, RunFault, RunStop, StepFault, run_commands};

/// A word of outcomes, one label for each measurement in text order, and its weight.
#[derive(Drop)]
pub struct Row<R: StarRing> {
    pub word: Vec<u8>,
    pub weight: R::Elem,
}

/// The total weight of the start, and the words whose weight isn't zero, in the order of lists of labels.
#[derive(Drop)]
pub struct Rows<R: StarRing> {
    pub total: R::Elem,
    pub list: Vec<Row<R>>,
}

/// Adds a row with a copy of its word.
fn add_row<R: StarRing>(
    alloc: Global,
    rows: &mut Vec<Row<R>>,
    word: &[u8],
    weight: R::Elem,
) -> Result<(), AllocError>
    ensures { OnOk result (rows_of rows.new.items ≡ rows_of rows.old.items ++ (word.now, weight) ∷ []) }
{
    let copy = Vec::from_slice(alloc, word)?;
    rows.push(Row { word: copy, weight })?;
    Ok(())
}

/// Adds the row of a word, if its weight isn't zero.
fn push_row<R: StarRing>(
    alloc: Global,
    ring: &R,
    rows: &mut Vec<Row<R>>,
    word: &[u8],
    weight: R::Elem,
) -> Result<(), AllocError>
    requires { IsTrue ((R.ring ring.now).member weight) }
    ensures { OnOk result (rows_of rows.new.items ≡ row_added R.held.is_zero word.now weight (rows_of rows.old.items)) }
{
    if is_zero(ring, &weight) {
        return Ok(());
    }
    add_row(alloc, rows, word, weight)
}

/// The rows of live words: those whose weight isn't zero, in their order, each with a copy of its word.
///
/// `weigh` tells the weight of a state. Stops with [`StepFault::TooLarge`] exactly where it does.
pub fn rows_of_words<R: StarRing, E: Engine, F: Fn(&E::State) -> Result<R::Elem, Overflow>>(
    alloc: Global,
    engine: &E,
    ring: &R,
    words: &[LiveWord<E::State>],
    weigh: F,
) -> Result<Vec<Row<R>>, StepFault>
    requires words { AreOf (E.Of engine.now) words.now }
    requires callable { (state : _) → E.Of engine.now state.now → F.pre weigh state }
    requires members { (state : _) (answer : _) → F.post weigh state answer → IfOk answer (λ v. IsTrue ((R.ring ring.now).member v)) }
    ensures rows { (stated : E.Seen → Option R.Elem) → AreWeights (F.post weigh) (λ state. E.seen engine.now state.now) stated
        → IfOk result (λ rows. rows_at stated R.held.is_zero (lives_of (E.seen engine.now) words.now) ≡ Some (rows_of rows.items)) }
    ensures too_large { (stated : E.Seen → Option R.Elem) → AreWeights (F.post weigh) (λ state. E.seen engine.now state.now) stated
        → IsErrOf result StepFault.TooLarge → rows_at stated R.held.is_zero (lives_of (E.seen engine.now) words.now) ≡ None }
{
    let mut rows = Vec::new(alloc);
    for live in words {
        let weight = weigh(&live.state)?;
        push_row(alloc, ring, &mut rows, live.word.as_slice(), weight)?;
    }
    Ok(rows)
}

/// The rows at the end of a run of so many turns: the turn behind them evaluates the weights.
pub(crate) fn end_rows<R: StarRing, E: Engine, F: Fn(&E::State) -> Result<R::Elem, Overflow>>(
    alloc: Global,
    engine: &E,
    ring: &R,
    ends: &[LiveWord<E::State>],
    turns: usize,
    weigh: F,
) -> Result<Vec<Row<R>>, RunFault>
    requires ends { AreOf (E.Of engine.now) ends.now }
    requires few { turns < 2 ^ 31 }
    requires callable { (state : _) → E.Of engine.now state.now → F.pre weigh state }
    requires members { (state : _) (answer : _) → F.post weigh state answer → IfOk answer (λ v. IsTrue ((R.ring ring.now).member v)) }
    ensures { (stated : E.Seen → Option R.Elem) → AreWeights (F.post weigh) (λ state. E.seen engine.now state.now) stated
        → Runs (λ rows. rows_of rows.items) result (fitting (1 + turns) (rows_at stated R.held.is_zero (lives_of (E.seen engine.now) ends.now))) }
{
    match rows_of_words(alloc, engine, ring, ends, weigh) {
        Ok(rows) => Ok(rows),
        Err(fault) => Err(fault.in_turn(turns as u32 + 1)),
    }
}

/// The rows at the end of commands from a state.
fn text_rows<R: StarRing, E: Engine, F: Fn(&E::State) -> Result<R::Elem, Overflow>>(
    alloc: Global,
    engine: &E,
    ring: &R,
    commands: &[Command],
    start: E::State,
    weigh: F,
) -> Result<Vec<Row<R>>, RunFault>
    requires of { E.Of engine.now start }
    requires runnable { AreRunnable (E.told engine.now) commands.now }
    requires callable { (state : _) → E.Of engine.now state.now → F.pre weigh state }
    requires members { (state : _) (answer : _) → F.post weigh state answer → IfOk answer (λ v. IsTrue ((R.ring ring.now).member v)) }
    ensures { (stated : E.Seen → Option R.Elem) → AreWeights (F.post weigh) (λ state. E.seen engine.now state.now) stated
        → Runs (λ rows. rows_of rows.items) result (rows_from (E.told engine.now) stated R.held.is_zero (E.seen engine.now start) commands.now) }
{
    let ends = run_commands(alloc, engine, commands, start)?;
    match end_rows(alloc, engine, ring, ends.as_slice(), commands.len(), weigh) {
        Ok(rows) => Ok(rows),
        Err(fault) => Err(fault),
    }
}

/// The total and the rows of commands in the order of the text, from a state: its weight, and each word of outcomes whose
/// weight isn't zero, with its weight, in the order in which the words are made.
///
/// `weigh` tells the weight of a state. `Overflow` comes exactly at the turn of the first item that doesn't fit: turn 0
/// evaluates the total, each command is a turn, and the turn after the last one evaluates the weights of the words.
/// `Branches` and `Wide` come exactly where the words or the amplitudes pass the limits of `word_runs`. What the rows mean
/// is [`laws::outcomes`](crate::laws::outcomes).
pub fn text_outcomes<R: StarRing, E: Engine, F: Fn(&E::State) -> Result<R::Elem, Overflow>>(
    alloc: Global,
    engine: &E,
    ring: &R,
    commands: &[Command],
    start: E::State,
    weigh: F,
) -> Result<Rows<R>, RunFault>
    requires of { E.Of engine.now start }
    requires runnable { AreRunnable (E.told engine.now) commands.now }
    requires callable { (state : _) → E.Of engine.now state.now → F.pre weigh state }
    requires members { (state : _) (answer : _) → F.post weigh state answer → IfOk answer (λ v. IsTrue ((R.ring ring.now).member v)) }
    // It stops exactly where the stated evaluation does.
    ensures { (stated : E.Seen → Option R.Elem) → AreWeights (F.post weigh) (λ state. E.seen engine.now state.now) stated
        → Runs outcomes_in result (evaluation_of (E.told engine.now) stated R.held.is_zero (E.seen engine.now start) commands.now) }
{
    let Ok(total) = weigh(&start) else {
        return Err(RunFault::Stop(RunStop::Overflow { turn: 0 }));
    };
    match text_rows(alloc, engine, ring, commands, start, weigh) {
        Ok(list) => Ok(Rows { total, list }),
        Err(fault) => Err(fault),
    }
}
