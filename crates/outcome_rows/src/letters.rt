//! The ends and the outcomes of letters, whatever the order of their turns.

ghost use Rattle.std.specs.Prelude.{◌≡◌, ◌<◌, ◌^◌, Option, IsTrue, IfOk, OnOk, IsPermutation, IsSortedByKey, length};
ghost use Rattle.std.specs.List.{AllByRecursion};
ghost use Rattle.word_runs.specs.Runs.{run_of, start_word};
ghost use Rattle.word_runs.specs.Lives.{AreOf, IsFit, lives_of};
ghost use Rattle.run_laws.specs.Rows.{word_cmp};
ghost use Rattle.outcome_rows.specs.Ends.{AreOutcomesOf, AreRowsOf, RunsSorted, StopsAs, letter_ends, weighed_ends};
ghost use Rattle.outcome_rows.specs.Evaluated.{AreWeights};
ghost use Rattle.outcome_rows.specs.Rows.{outcomes_in, rows_of};

use crate::rows::{Row, Rows, end_rows};
use program_text::Letter;
use ring_laws::{Overflow, StarRing};
use std::alloc::{AllocError, Global};
use std::cmp::Ordering;
use word_runs::{Engine, LiveWord, RunFault, RunStop, run_letters};

/// The order of two live words by their labels.
fn by_word<S: Drop>(first: &LiveWord<S>, second: &LiveWord<S>) -> Ordering
    ensures { result ≡ word_cmp first.now.word.items second.now.word.items }
{
    first.word.cmp(&second.word)
}

/// Sorts live words by their labels.
fn sort_words<S: Drop>(words: &mut Vec<LiveWord<S>>) -> Result<(), AllocError>
    ensures permutation { OnOk result (IsPermutation words.old.items words.new.items) }
    ensures order { OnOk result (IsSortedByKey (λ l. l.word.items) word_cmp words.new.items) }
{
    words.sort_by(by_word)?;
    Ok(())
}

/// The live words at the end of letters from a state, in the order of lists of labels: [`run_letters`](word_runs::run_letters)
/// in whatever order the turns make them, sorted.
///
/// The run stops exactly where the stated evaluation does.
pub fn sorted_ends<E: Engine>(
    alloc: Global,
    engine: &E,
    letters: &[Letter],
    places: u32,
    start: E::State,
) -> Result<Vec<LiveWord<E::State>>, RunFault>
    requires of { E.Of engine.now start }
    requires fit { AllByRecursion (IsFit (E.told engine.now) places) letters.now }
    requires few { length letters.now < 2 ^ 31 }
    ensures of { IfOk result (λ ends. AreOf (E.Of engine.now) ends.items) }
    // It ends in the stated live words, sorted, and stops exactly where the stated evaluation does.
    ensures stated { RunsSorted (λ ends. lives_of (E.seen engine.now) ends.items) result
        (run_of (E.told engine.now) 1 letters.now (start_word places (E.seen engine.now start))) }
{
    let mut ends = run_letters(alloc, engine, letters, places, start)?;
    sort_words(&mut ends)?;
    Ok(ends)
}

/// The rows at the end of letters from a state.
fn letter_rows<R: StarRing, E: Engine, F: Fn(&E::State) -> Result<R::Elem, Overflow>>(
    alloc: Global,
    engine: &E,
    ring: &R,
    letters: &[Letter],
    places: u32,
    start: E::State,
    weigh: F,
) -> Result<Vec<Row<R>>, RunFault>
    requires of { E.Of engine.now start }
    requires fit { AllByRecursion (IsFit (E.told engine.now) places) letters.now }
    requires few { length letters.now < 2 ^ 31 }
    requires callable { (state : _) → E.Of engine.now state.now → F.pre weigh state }
    requires members { (state : _) (answer : _) → F.post weigh state answer → IfOk answer (λ v. IsTrue ((R.ring ring.now).member v)) }
    ensures stated { (stated : E.Seen → Option R.Elem) → AreWeights (F.post weigh) (λ state. E.seen engine.now state.now) stated
        → StopsAs result (letter_ends (E.told engine.now) stated places letters.now (E.seen engine.now start)) }
    ensures rows { (stated : E.Seen → Option R.Elem) → AreWeights (F.post weigh) (λ state. E.seen engine.now state.now) stated
        → IfOk result (λ rows. AreRowsOf (E.told engine.now) stated R.held.is_zero places letters.now (E.seen engine.now start) (rows_of rows.items)) }
{
    let ends = sorted_ends(alloc, engine, letters, places, start)?;
    match end_rows(alloc, engine, ring, ends.as_slice(), letters.len(), weigh) {
        Ok(rows) => Ok(rows),
        Err(fault) => Err(fault),
    }
}

/// The total and the rows of letters, one after another, from a state: its weight, and each word of outcomes whose weight
/// isn't zero, with its weight, in the order of lists of labels.
///
/// A word has so many places, one for each measurement in text order. Each letter is a turn, counted from 1, at a gap of the
/// strands, and reads or writes one of the places. `weigh` tells the weight of a state. `Overflow` comes exactly at the turn
/// of the first item that doesn't fit: turn 0 evaluates the total, each letter is a turn, and the turn after the last one
/// evaluates the weights of the words. `Branches` and `Wide` come exactly where the words or the amplitudes pass the limits
/// of `word_runs`. What the rows mean is [`run_laws`]'s `rows`.
pub fn letter_outcomes<R: StarRing, E: Engine, F: Fn(&E::State) -> Result<R::Elem, Overflow>>(
    alloc: Global,
    engine: &E,
    ring: &R,
    letters: &[Letter],
    places: u32,
    start: E::State,
    weigh: F,
) -> Result<Rows<R>, RunFault>
    requires of { E.Of engine.now start }
    requires fit { AllByRecursion (IsFit (E.told engine.now) places) letters.now }
    requires few { length letters.now < 2 ^ 31 }
    requires callable { (state : _) → E.Of engine.now state.now → F.pre weigh state }
    requires members { (state : _) (answer : _) → F.post weigh state answer → IfOk answer (λ v. IsTrue ((R.ring ring.now).member v)) }
    // It stops exactly where the stated evaluation does.
    ensures stated { (stated : E.Seen → Option R.Elem) → AreWeights (F.post weigh) (λ state. E.seen engine.now state.now) stated
        → StopsAs result (weighed_ends (E.told engine.now) stated places letters.now (E.seen engine.now start)) }
    // Else the total is the weight of the start, and the rows are those of the stated live words.
    ensures outcomes { (stated : E.Seen → Option R.Elem) → AreWeights (F.post weigh) (λ state. E.seen engine.now state.now) stated
        → IfOk result (λ rows. AreOutcomesOf (E.told engine.now) stated R.held.is_zero places letters.now (E.seen engine.now start) (outcomes_in rows)) }
{
    let Ok(total) = weigh(&start) else {
        return Err(RunFault::Stop(RunStop::Overflow { turn: 0 }));
    };
    match letter_rows(alloc, engine, ring, letters, places, start, weigh) {
        Ok(list) => Ok(Rows { total, list }),
        Err(fault) => Err(fault),
    }
}
