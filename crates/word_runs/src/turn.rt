//! Steps within the limits, and turns.

ghost use Rattle.std.specs.Prelude.{◌≡◌, ◌<◌, ◌^◌, ◌-◌, ℕ, List, length, min, IfOk, OnOk, IsErrOf, Some, None, true, Result, Ok};
ghost use Rattle.std.specs.List.{AllByRecursion};
ghost use Rattle.word_runs.specs.Told.{IsGap, IsAllowed};
ghost use Rattle.word_runs.specs.Runs.{width, counted, limited, step_of, split_of, settled, path_of, turn_of, ◌>>>◌, Runs, Leaves};
ghost use Rattle.word_runs.specs.Lives.{lives_of, test_of, AreOf, IsTestBelow, AreAlike, IsFit};
ghost use Rattle.word_runs.specs.declared.engine.Step.TheVariants.{Raise, Exchange};

use crate::engine::{Engine, Step};
use crate::fault::{RunFault, RunStop};
use crate::limits::{AMPLITUDE_LIMIT, GREATEST_COUNT, WORD_LIMIT};
use crate::live::{LiveWord, OutcomeTest, split_all, step_all};
use program_text::{Letter, Sign};
use std::alloc::{AllocError, Global};

/// How many amplitudes stand over all live words; more than there are numbers are as many as those.
fn width<E: Engine>(engine: &E, live: &[LiveWord<E::State>]) -> usize
    requires of { AreOf (E.Of engine.now) live.now }
    ensures { result ≡ min (width (E.told engine.now) (lives_of (E.seen engine.now) live.now)) (2 ^ 64 - 1) }
{
    let mut entries: usize = 0;
    for word in live {
        entries = entries.saturating_add(engine.entries(&word.state));
    }
    entries
}

/// A count as a stop tells it.
fn counted(count: usize) -> u32
    ensures { result ≡ counted count }
{
    count.min(GREATEST_COUNT) as u32
}

/// The two limits that are tried after each step: the live words, then the amplitudes over all of them.
fn try_limits<E: Engine>(engine: &E, live: &[LiveWord<E::State>], turn: u32) -> Result<(), RunFault>
    requires of { AreOf (E.Of engine.now) live.now }
    ensures stated { Leaves (lives_of (E.seen engine.now) live.now) result (limited (E.told engine.now) turn (lives_of (E.seen engine.now) live.now)) }
{
    if live.len() > WORD_LIMIT {
        return Err(RunFault::Stop(RunStop::Branches {
            turn,
            count: counted(live.len()),
        }));
    }
    let entries = width(engine, live);
    if entries > AMPLITUDE_LIMIT {
        return Err(RunFault::Stop(RunStop::Wide {
            turn,
            entries: counted(entries),
        }));
    }
    Ok(())
}

/// One step of a turn on all live words: first whether its items fit, then the limits.
fn step_within<E: Engine>(
    alloc: Global,
    engine: &E,
    live: &mut [LiveWord<E::State>],
    test: Option<OutcomeTest>,
    step: Step,
    turn: u32,
) -> Result<(), RunFault>
    requires of { AreOf (E.Of engine.now) live.old }
    requires allowed { AllByRecursion (λ l. IsAllowed (E.told engine.now) step ((E.told engine.now).shape l.state)) (lives_of (E.seen engine.now) live.old) }
    requires place { AllByRecursion (λ l. IsTestBelow (length l.word) (test_of test)) (lives_of (E.seen engine.now) live.old) }
    ensures of { OnOk result (AreOf (E.Of engine.now) live.new) }
    ensures stated { Leaves (lives_of (E.seen engine.now) live.new) result (step_of (E.told engine.now) turn (test_of test) step (lives_of (E.seen engine.now) live.old)) }
{
    match step_all(alloc, engine, live, test, step) {
        Ok(()) => try_limits(engine, live, turn),
        Err(fault) => Err(fault.in_turn(turn)),
    }
}

/// Gap k raised in all live words.
fn raise<E: Engine>(
    alloc: Global,
    engine: &E,
    live: &mut [LiveWord<E::State>],
    gap: u8,
    turn: u32,
) -> Result<(), RunFault>
    requires of { AreOf (E.Of engine.now) live.old }
    requires alike { (m : ℕ) × AreAlike (E.told engine.now) m (lives_of (E.seen engine.now) live.old) }
    requires gap { IsGap (E.told engine.now) gap }
    ensures of { OnOk result (AreOf (E.Of engine.now) live.new) }
    ensures alike { OnOk result ((m : ℕ) → AreAlike (E.told engine.now) m (lives_of (E.seen engine.now) live.old) → AreAlike (E.told engine.now) m (lives_of (E.seen engine.now) live.new)) }
    ensures stated { Leaves (lives_of (E.seen engine.now) live.new) result (step_of (E.told engine.now) turn None (Raise gap) (lives_of (E.seen engine.now) live.old)) }
{
    step_within(alloc, engine, live, None, Step::Raise { gap }, turn)
}

/// The gaps to raise so that gap k is a pair in every live word; they have one shape.
fn path_of<E: Engine>(
    alloc: Global,
    engine: &E,
    live: &[LiveWord<E::State>],
    k: u8,
) -> Result<Vec<u8>, AllocError>
    requires of { AreOf (E.Of engine.now) live.now }
    requires gap { IsGap (E.told engine.now) k }
    ensures { IfOk result (λ path. path.items ≡ path_of (E.told engine.now) k (lives_of (E.seen engine.now) live.now)) }
{
    match live.first() {
        None => Ok(Vec::new(alloc)),
        Some(word) => engine.path(alloc, &word.state, k),
    }
}

/// The steps of a turn that make gap k a pair.
fn settle<E: Engine>(
    alloc: Global,
    engine: &E,
    live: &mut [LiveWord<E::State>],
    k: u8,
    turn: u32,
) -> Result<(), RunFault>
    requires of { AreOf (E.Of engine.now) live.old }
    requires alike { (m : ℕ) × AreAlike (E.told engine.now) m (lives_of (E.seen engine.now) live.old) }
    requires gap { IsGap (E.told engine.now) k }
    ensures of { OnOk result (AreOf (E.Of engine.now) live.new) }
    ensures alike { OnOk result ((m : ℕ) → AreAlike (E.told engine.now) m (lives_of (E.seen engine.now) live.old) → AreAlike (E.told engine.now) m (lives_of (E.seen engine.now) live.new)) }
    ensures pair { OnOk result (AllByRecursion (λ l. (E.told engine.now).is_pair k ((E.told engine.now).shape l.state) ≡ true) (lives_of (E.seen engine.now) live.new)) }
    ensures stated { Leaves (lives_of (E.seen engine.now) live.new) result (settled (E.told engine.now) turn k (lives_of (E.seen engine.now) live.old)) }
{
    let path = path_of(alloc, engine, live, k)?;
    for gap in path.as_slice() {
        raise(alloc, engine, live, *gap, turn)?;
    }
    Ok(())
}

/// An exchange at gap k on the live words that pass the test: the pair, then the exchange.
fn exchange<E: Engine>(
    alloc: Global,
    engine: &E,
    live: &mut [LiveWord<E::State>],
    k: u8,
    sign: Sign,
    test: Option<OutcomeTest>,
    turn: u32,
) -> Result<(), RunFault>
    requires of { AreOf (E.Of engine.now) live.old }
    requires alike { (m : ℕ) × AreAlike (E.told engine.now) m (lives_of (E.seen engine.now) live.old) × IsTestBelow m (test_of test) }
    requires gap { IsGap (E.told engine.now) k }
    ensures of { OnOk result (AreOf (E.Of engine.now) live.new) }
    ensures alike { OnOk result ((m : ℕ) → AreAlike (E.told engine.now) m (lives_of (E.seen engine.now) live.old) → AreAlike (E.told engine.now) m (lives_of (E.seen engine.now) live.new)) }
    ensures stated { Leaves (lives_of (E.seen engine.now) live.new) result
        (settled (E.told engine.now) turn k (lives_of (E.seen engine.now) live.old) >>> step_of (E.told engine.now) turn (test_of test) (Exchange k sign)) }
{
    settle(alloc, engine, live, k, turn)?;
    let step = Step::Exchange { gap: k, sign };
    step_within(alloc, engine, live, test, step, turn)
}

/// The words of a measurement with this place, at a gap that is a pair, within the limits.
fn split_within<E: Engine>(
    alloc: Global,
    engine: &E,
    live: &[LiveWord<E::State>],
    k: u8,
    place: u32,
    turn: u32,
) -> Result<Vec<LiveWord<E::State>>, RunFault>
    requires of { AreOf (E.Of engine.now) live.now }
    requires pair { AllByRecursion (λ l. (E.told engine.now).is_pair k ((E.told engine.now).shape l.state) ≡ true) (lives_of (E.seen engine.now) live.now) }
    requires place { AllByRecursion (λ l. place < length l.word) (lives_of (E.seen engine.now) live.now) }
    ensures of { IfOk result (λ next. AreOf (E.Of engine.now) next.items) }
    ensures stated { Runs (λ next. lives_of (E.seen engine.now) next.items) result (split_of (E.told engine.now) turn k place (lives_of (E.seen engine.now) live.now)) }
{
    match split_all(alloc, engine, live, k, place) {
        Ok(next) => {
            try_limits(engine, next.as_slice(), turn)?;
            Ok(next)
        }
        Err(fault) => Err(fault.in_turn(turn)),
    }
}

/// A measurement at gap k with this place: the pair, then the words of its parts.
fn measure<E: Engine>(
    alloc: Global,
    engine: &E,
    live: &mut [LiveWord<E::State>],
    k: u8,
    place: u32,
    turn: u32,
) -> Result<Vec<LiveWord<E::State>>, RunFault>
    requires of { AreOf (E.Of engine.now) live.old }
    requires alike { (m : ℕ) × AreAlike (E.told engine.now) m (lives_of (E.seen engine.now) live.old) × (place < m) }
    requires gap { IsGap (E.told engine.now) k }
    ensures of { IfOk result (λ next. AreOf (E.Of engine.now) next.items) }
    ensures alike { IfOk result (λ next. (m : ℕ) → AreAlike (E.told engine.now) m (lives_of (E.seen engine.now) live.old) → AreAlike (E.told engine.now) m (lives_of (E.seen engine.now) next.items)) }
    ensures stated { Runs (λ next. lives_of (E.seen engine.now) next.items) result
        (settled (E.told engine.now) turn k (lives_of (E.seen engine.now) live.old) >>> split_of (E.told engine.now) turn k place) }
{
    settle(alloc, engine, live, k, turn)?;
    split_within(alloc, engine, live, k, place, turn)
}

/// One turn.
pub(crate) fn run_turn<E: Engine>(
    alloc: Global,
    engine: &E,
    live: &mut Vec<LiveWord<E::State>>,
    letter: Letter,
    turn: u32,
) -> Result<(), RunFault>
    requires of { AreOf (E.Of engine.now) live.old.items }
    requires alike { (m : ℕ) × AreAlike (E.told engine.now) m (lives_of (E.seen engine.now) live.old.items) × IsFit (E.told engine.now) m letter }
    ensures of { OnOk result (AreOf (E.Of engine.now) live.new.items) }
    ensures alike { OnOk result ((m : ℕ) → AreAlike (E.told engine.now) m (lives_of (E.seen engine.now) live.old.items) → AreAlike (E.told engine.now) m (lives_of (E.seen engine.now) live.new.items)) }
    ensures stated { Leaves (lives_of (E.seen engine.now) live.new.items) result (turn_of (E.told engine.now) turn letter (lives_of (E.seen engine.now) live.old.items)) }
{
    match letter {
        Letter::Still { gap } => raise(alloc, engine, live.as_mut_slice(), gap, turn),
        Letter::Crossing { gap, sign } => {
            exchange(alloc, engine, live.as_mut_slice(), gap, sign, None, turn)
        }
        Letter::Tested {
            gap,
            sign,
            place,
            label,
        } => {
            let test = Some(OutcomeTest { place, label });
            exchange(alloc, engine, live.as_mut_slice(), gap, sign, test, turn)
        }
        Letter::Charge { gap, place } => {
            *live = measure(alloc, engine, live.as_mut_slice(), gap, place, turn)?;
            Ok(())
        }
    }
}
