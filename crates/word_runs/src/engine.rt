ghost use Rattle.std.specs.Prelude.{◌≡◌, ℕ, true, IfOk, OnOk, IsErrOf, Some, None, All};
ghost use Rattle.word_runs.specs.Told.{Told, IsGap, IsAllowed, AreShapes};
ghost use Rattle.word_runs.specs.Parts.{parts_of};

use crate::fault::StepFault;
use program_text::Sign;
use std::alloc::{AllocError, Global};

/// A step on the state of one word, at a gap counted from 1.
#[derive(Clone, Copy, Debug, PartialEq, Eq, Drop)]
pub enum Step {
    /// A raise: another tree of the same strands, the same meaning.
    Raise { gap: u8 },
    /// An exchange of the two strands at the gap.
    Exchange { gap: u8, sign: Sign },
}

/// A part of a state, with the charge that it has at the pair.
#[derive(Drop)]
pub struct Part<S: Drop> {
    pub label: u8,
    pub state: S,
}

/// What acts on the states of words, such as a category on vectors over comb paths.
///
/// `Seen` is what a state means, of which the stated evaluation speaks; `Shape` is what of it decides which steps a turn
/// has, such as a tree without its labels.
pub trait Engine: Drop {
    type State: Drop;

    ghost Seen: { Type 0 };

    ghost Shape: { Type 0 };

    ghost seen: { Self → Self.State → Seen };

    ghost told: { Self → Told Seen Shape };
    // such as: its labels are below the count, and its keys are admissible
    ghost Of: { Self → Self.State → Type 0 };

    /// The gaps to raise, one after another, so that gap k becomes a pair.
    fn path(&self, alloc: Global, state: &Self::State, k: u8) -> Result<Vec<u8>, AllocError>
        requires of { Of self.now state.now }
        requires gap { IsGap (told self.now) k }
        ensures path { IfOk result (λ path. path.items ≡ (told self.now).path k ((told self.now).shape (seen self.now state.now))) };

    /// One step; refused, the state may be anything of the engine.
    fn step(&self, alloc: Global, state: &mut Self::State, step: Step) -> Result<(), StepFault>
        requires of { Of self.now state.old }
        requires allowed { IsAllowed (told self.now) step ((told self.now).shape (seen self.now state.old)) }
        ensures of { Of self.now state.new }
        ensures value { OnOk result ((told self.now).stepped step (seen self.now state.old) ≡ Some (seen self.now state.new)) }
        ensures too_large { IsErrOf result StepFault.TooLarge → (told self.now).stepped step (seen self.now state.old) ≡ None };

    /// The parts by the charge of the pair at gap k, in label order.
    fn split(
        &self,
        alloc: Global,
        state: &Self::State,
        k: u8,
    ) -> Result<Vec<Part<Self::State>>, StepFault>
        requires of { Of self.now state.now }
        requires pair { (told self.now).is_pair k ((told self.now).shape (seen self.now state.now)) ≡ true }
        ensures parts { IfOk result (λ parts. (told self.now).parts k (seen self.now state.now) ≡ Some (parts_of (seen self.now) parts.items)) }
        ensures of { IfOk result (λ parts. All (λ part. Of self.now part.state) parts.items) }
        ensures too_large { IsErrOf result StepFault.TooLarge → (told self.now).parts k (seen self.now state.now) ≡ None };

    /// How many amplitudes the state has.
    fn entries(&self, state: &Self::State) -> usize
        requires of { Of self.now state.now }
        ensures entries { result ≡ (told self.now).entries (seen self.now state.now) };

    ghost shapes: { (e : Self) → AreShapes (told e) };
}
