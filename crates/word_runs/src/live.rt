//! Live words, and what a step and a measurement make of them.

ghost use Rattle.std.specs.Prelude.{◌≡◌, ◌<◌, ◌++◌, ℕ, List, length, IfOk, OnOk, IsErrOf, Some, None, true, All, slice_set, [], ◌∷◌};
ghost use Rattle.std.specs.List.{AllByRecursion};
ghost use Rattle.word_runs.specs.Told.{IsAllowed};
ghost use Rattle.word_runs.specs.Runs.{passes, step_word, step_words, outcomes_of, split_word, split_words};
ghost use Rattle.word_runs.specs.Parts.{parts_of};
ghost use Rattle.word_runs.specs.Lives.{live_of, lives_of, test_of, AreOf, IsTestBelow};

use crate::engine::{Engine, Part, Step};
use crate::fault::StepFault;
use std::alloc::{AllocError, Global};

/// A live word: one label for each measurement in text order, 0 where it isn't made yet; and its state.
#[derive(Drop)]
pub struct LiveWord<S: Drop> {
    pub word: Vec<u8>,
    pub state: S,
}

/// A test of an outcome: its place in the word, and the label that is asked.
#[derive(Clone, Copy, Debug, PartialEq, Eq, Drop)]
pub(crate) struct OutcomeTest {
    pub(crate) place: u32,
    pub(crate) label: u8,
}

/// Whether the word passes the test, if there is one.
fn is_passed(test: Option<OutcomeTest>, word: &[u8]) -> bool
    requires { IsTestBelow (length word.now) (test_of test) }
    ensures { result ≡ passes (test_of test) word.now }
{
    match test {
        None => true,
        Some(test) => word[test.place as usize] == test.label,
    }
}

/// A step on a live word; one that fails the test stays.
fn step_one<E: Engine>(
    alloc: Global,
    engine: &E,
    live: &mut LiveWord<E::State>,
    test: Option<OutcomeTest>,
    step: Step,
) -> Result<(), StepFault>
    requires of { E.Of engine.now live.old.state }
    requires allowed { IsAllowed (E.told engine.now) step ((E.told engine.now).shape (E.seen engine.now live.old.state)) }
    requires place { IsTestBelow (length live.old.word.items) (test_of test) }
    ensures of { E.Of engine.now live.new.state }
    ensures value { OnOk result (step_word (E.told engine.now) (test_of test) step (live_of (E.seen engine.now) live.old) ≡ Some (live_of (E.seen engine.now) live.new)) }
    ensures too_large { IsErrOf result StepFault.TooLarge → step_word (E.told engine.now) (test_of test) step (live_of (E.seen engine.now) live.old) ≡ None }
{
    if is_passed(test, &live.word) {
        engine.step(alloc, &mut live.state, step)?;
    }
    Ok(())
}

/// A step on all live words.
pub(crate) fn step_all<E: Engine>(
    alloc: Global,
    engine: &E,
    live: &mut [LiveWord<E::State>],
    test: Option<OutcomeTest>,
    step: Step,
) -> Result<(), StepFault>
    requires of { AreOf (E.Of engine.now) live.old }
    requires allowed { AllByRecursion (λ l. IsAllowed (E.told engine.now) step ((E.told engine.now).shape l.state)) (lives_of (E.seen engine.now) live.old) }
    requires place { AllByRecursion (λ l. IsTestBelow (length l.word) (test_of test)) (lives_of (E.seen engine.now) live.old) }
    ensures of { OnOk result (AreOf (E.Of engine.now) live.new) }
    ensures value { OnOk result (step_words (E.told engine.now) (test_of test) step (lives_of (E.seen engine.now) live.old) ≡ Some (lives_of (E.seen engine.now) live.new)) }
    ensures too_large { IsErrOf result StepFault.TooLarge → step_words (E.told engine.now) (test_of test) step (lives_of (E.seen engine.now) live.old) ≡ None }
{
    for word in live.iter_mut() {
        step_one(alloc, engine, word, test, step)?;
    }
    Ok(())
}

/// The word with the label at the place.
fn word_with(alloc: Global, word: &[u8], place: u32, label: u8) -> Result<Vec<u8>, AllocError>
    requires { place < length word.now }
    ensures { IfOk result (λ new. new.items ≡ slice_set word.now place label) }
{
    let mut new = Vec::from_slice(alloc, word)?;
    new[place as usize] = label;
    Ok(new)
}

/// Adds a live word.
pub(crate) fn push_live<S: Drop>(
    live: &mut Vec<LiveWord<S>>,
    word: LiveWord<S>,
) -> Result<(), AllocError>
    ensures { OnOk result (live.new.items ≡ live.old.items ++ word ∷ []) }
{
    live.push(word)?;
    Ok(())
}

/// Adds the words of these parts of a live word, each with its charge at the place.
fn push_parts<E: Engine>(
    alloc: Global,
    engine: &E,
    word: &[u8],
    parts: Vec<Part<E::State>>,
    place: u32,
    next: &mut Vec<LiveWord<E::State>>,
) -> Result<(), AllocError>
    requires parts { All (λ part. E.Of engine.now part.state) parts.items }
    requires place { place < length word.now }
    requires next { AreOf (E.Of engine.now) next.old.items }
    ensures of { OnOk result (AreOf (E.Of engine.now) next.new.items) }
    ensures value { OnOk result (lives_of (E.seen engine.now) next.new.items
        ≡ lives_of (E.seen engine.now) next.old.items ++ outcomes_of place word.now (parts_of (E.seen engine.now) parts.items)) }
{
    for part in parts {
        let outcome = word_with(alloc, word, place, part.label)?;
        push_live(
            next,
            LiveWord {
                word: outcome,
                state: part.state,
            },
        )?;
    }
    Ok(())
}

/// Adds the words of a measurement at gap k with this place, made of one live word: in label order, one for each part.
fn split_one<E: Engine>(
    alloc: Global,
    engine: &E,
    live: &LiveWord<E::State>,
    k: u8,
    place: u32,
    next: &mut Vec<LiveWord<E::State>>,
) -> Result<(), StepFault>
    requires of { E.Of engine.now live.now.state }
    requires pair { (E.told engine.now).is_pair k ((E.told engine.now).shape (E.seen engine.now live.now.state)) ≡ true }
    requires place { place < length live.now.word.items }
    requires next { AreOf (E.Of engine.now) next.old.items }
    ensures of { OnOk result (AreOf (E.Of engine.now) next.new.items) }
    ensures value { OnOk result ((made : List _) × (split_word (E.told engine.now) k place (live_of (E.seen engine.now) live.now) ≡ Some made)
        × (lives_of (E.seen engine.now) next.new.items ≡ lives_of (E.seen engine.now) next.old.items ++ made)) }
    ensures too_large { IsErrOf result StepFault.TooLarge → split_word (E.told engine.now) k place (live_of (E.seen engine.now) live.now) ≡ None }
{
    let parts = engine.split(alloc, &live.state, k)?;
    push_parts(alloc, engine, &live.word, parts, place, next)?;
    Ok(())
}

/// The words of a measurement at gap k with this place, made of all live words.
pub(crate) fn split_all<E: Engine>(
    alloc: Global,
    engine: &E,
    live: &[LiveWord<E::State>],
    k: u8,
    place: u32,
) -> Result<Vec<LiveWord<E::State>>, StepFault>
    requires of { AreOf (E.Of engine.now) live.now }
    requires pair { AllByRecursion (λ l. (E.told engine.now).is_pair k ((E.told engine.now).shape l.state) ≡ true) (lives_of (E.seen engine.now) live.now) }
    requires place { AllByRecursion (λ l. place < length l.word) (lives_of (E.seen engine.now) live.now) }
    ensures of { IfOk result (λ next. AreOf (E.Of engine.now) next.items) }
    ensures value { IfOk result (λ next. split_words (E.told engine.now) k place (lives_of (E.seen engine.now) live.now) ≡ Some (lives_of (E.seen engine.now) next.items)) }
    ensures too_large { IsErrOf result StepFault.TooLarge → split_words (E.told engine.now) k place (lives_of (E.seen engine.now) live.now) ≡ None }
{
    let mut next = Vec::new(alloc);
    for word in live {
        split_one(alloc, engine, word, k, place, &mut next)?;
    }
    Ok(next)
}
