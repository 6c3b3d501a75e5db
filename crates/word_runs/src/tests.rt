ghost use Rattle.std.specs.List.{AllByRecursion};
ghost use Rattle.std.specs.Prelude.{◌≡◌, ◌+◌, ◌++◌, ℕ, nat_lt, if◌then◌else◌, refl, [], ◌∷◌, true, Some, None, OnOk};

use crate::{Engine, Part, RunFault, RunStop, Step, StepFault, run_commands};
use program_text::{Command, Sign};
use std::alloc::{AllocError, Global};
use std::test::Fail;

/// An engine whose state is a number below 101, to which each step adds one; a part has the number itself for the
/// charge 0 and its double for the charge 1, where it is below 50.
#[derive(Drop)]
struct Numbers;

fn push_part(parts: &mut Vec<Part<u8>>, label: u8, state: u8) -> Result<(), AllocError>
    ensures { OnOk result (parts.new.items ≡ parts.old.items ++ record { label = label; state = state } ∷ []) }
{
    parts.push(Part { label, state })?;
    Ok(())
}

impl Engine for Numbers {
    type State = u8;

    ghost Seen = { ℕ };

    ghost Shape = { Unit {0} };

    ghost seen = { λ _ s. s };

    ghost told = { λ _. record {
      strands = 3;
      shape = λ s. tt;
      turned = λ k t. t;
      path = λ k t. [];
      is_pair = λ k t. true;
      stepped = λ step s. if nat_lt s 100 then Some (s + 1) else None;
      parts = λ k s. if nat_lt s 50 then Some ((0, s) ∷ (1, s + s) ∷ []) else None;
      entries = λ s. s;
    } };

    ghost Of = { λ _ s. Unit {0} };

    ghost shapes = { λ _. record {
      steps = λ step s s' h. refl;
      parts = λ k s ps h. elim ps as (λ qs. AllByRecursion (λ (part : ℕ × ℕ). ◌≡◌ {A = Unit {0}} tt tt) qs) [ [] ↦ tt | ◌∷◌ x (xs → rest) ↦ (refl, rest) ];
      gaps = λ k t g. tt;
      pair = λ k t g. refl;
    } };

    fn path(&self, alloc: Global, _state: &u8, _k: u8) -> Result<Vec<u8>, AllocError> {
        Ok(Vec::new(alloc))
    }

    fn step(&self, _alloc: Global, state: &mut u8, _step: Step) -> Result<(), StepFault> {
        if *state >= 100 {
            return Err(StepFault::TooLarge);
        }
        *state += 1;
        Ok(())
    }

    fn split(&self, alloc: Global, state: &u8, _k: u8) -> Result<Vec<Part<u8>>, StepFault> {
        if *state >= 50 {
            return Err(StepFault::TooLarge);
        }
        let mut parts = Vec::new(alloc);
        push_part(&mut parts, 0, *state)?;
        push_part(&mut parts, 1, *state + *state)?;
        Ok(parts)
    }

    fn entries(&self, state: &u8) -> usize {
        usize::from(*state)
    }
}

#[test]
fn words_of_two_measurements(rt: HostRuntime) -> Result<(), Fail> {
    let commands = [
        Command::Measure { gap: 1 },
        Command::Braid {
            gap: 2,
            sign: Sign::Plus,
        },
        Command::Measure { gap: 1 },
    ];
    let ends = run_commands(rt.alloc(), &Numbers, &commands, 3)
        .ok()
        .ok_or("stopped")?;
    let expected = [([0, 0], 4), ([0, 1], 8), ([1, 0], 7), ([1, 1], 14)];
    assert_eq!(rt; ends.len(), expected.len());
    for (end, (word, state)) in ends.iter().zip(expected.iter()) {
        assert!(rt; end.word.as_slice() == word.as_slice());
        assert_eq!(rt; end.state, *state);
    }
    Ok(())
}

#[test]
fn the_first_turn_that_stops(rt: HostRuntime) {
    let raises = [Command::Raise { gap: 1 }, Command::Raise { gap: 2 }];
    let answer = run_commands(rt.alloc(), &Numbers, &raises, 99).err();
    assert!(rt; answer == Some(RunFault::Stop(RunStop::Overflow { turn: 2 })));
    let measured = [Command::Measure { gap: 1 }];
    let answer = run_commands(rt.alloc(), &Numbers, &measured, 60).err();
    assert!(rt; answer == Some(RunFault::Stop(RunStop::Overflow { turn: 1 })));
}
