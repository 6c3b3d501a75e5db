ghost use Rattle.std.specs.List.{AllByRecursion};
ghost use Rattle.std.specs.Prelude.{◌≡◌, ◌+◌, ◌++◌, ℕ, nat_lt, if◌then◌else◌, true, refl, [], ◌∷◌, Some, None, OnOk};

use crate::{Rows, letter_outcomes, rows_of_words, sorted_ends, text_commands, text_outcomes};
use program_text::{Command, Letter, Plan, Sign, Site};
use ring_laws::{Int, Overflow, Whole};
use std::alloc::{AllocError, Global};
use std::test::Fail;
use tree_shapes::strand;
use word_runs::{Engine, LiveWord, Part, Step, StepFault};

/// An engine whose state is a number, to which a part of the charge 1 adds one.
#[derive(Drop)]
struct Numbers;

fn push_part(parts: &mut Vec<Part<u8>>, label: u8, state: u8) -> Result<(), AllocError>
    ensures { OnOk result (parts.new.items ≡ parts.old.items ++ record { label = label; state = state } ∷ []) }
{
    parts.push(Part { label, state })?;
    Ok(())
}

impl Engine for Numbers {
    type State = u8;

    ghost Seen = { ℕ };

    ghost Shape = { Unit {0} };

    ghost seen = { λ _ s. s };

    ghost told = { λ _. record {
      strands = 3;
      shape = λ s. tt;
      turned = λ k t. t;
      path = λ k t. [];
      is_pair = λ k t. true;
      stepped = λ step s. Some s;
      parts = λ k s. if nat_lt s 200 then Some ((0, s) ∷ (1, s + 1) ∷ []) else None;
      entries = λ s. 1;
    } };

    ghost Of = { λ _ s. Unit {0} };

    ghost shapes = { λ _. record {
      steps = λ step s s' h. refl;
      parts = λ k s ps h. elim ps as (λ qs. AllByRecursion (λ (part : ℕ × ℕ). ◌≡◌ {A = Unit {0}} tt tt) qs) [ [] ↦ tt | ◌∷◌ x (xs → rest) ↦ (refl, rest) ];
      gaps = λ k t g. tt;
      pair = λ k t g. refl;
    } };

    fn path(&self, alloc: Global, _state: &u8, _k: u8) -> Result<Vec<u8>, AllocError> {
        Ok(Vec::new(alloc))
    }

    fn step(&self, _alloc: Global, _state: &mut u8, _step: Step) -> Result<(), StepFault> {
        Ok(())
    }

    fn split(&self, alloc: Global, state: &u8, _k: u8) -> Result<Vec<Part<u8>>, StepFault> {
        if *state >= 200 {
            return Err(StepFault::TooLarge);
        }
        let mut parts = Vec::new(alloc);
        push_part(&mut parts, 0, *state)?;
        push_part(&mut parts, 1, *state + 1)?;
        Ok(parts)
    }

    fn entries(&self, _state: &u8) -> usize {
        1
    }
}

fn whole(state: u8) -> Result<Int, Overflow> {
    let Some(x) = Int::new(i128::from(state)) else {
        return Err(Overflow);
    };
    Ok(x)
}

fn is_row(rows: &Rows<Whole>, at: usize, word: [u8; 2], weight: i128) -> bool {
    match rows.list.get(at) {
        Some(row) => row.word.as_slice() == word.as_slice() && row.weight.get() == weight,
        None => false,
    }
}

#[test]
fn outcomes_of_two_measurements(rt: HostRuntime) -> Result<(), Fail> {
    let commands = [
        Command::Measure { gap: 1 },
        Command::Raise { gap: 2 },
        Command::Measure { gap: 2 },
    ];
    let rows = text_outcomes(
        rt.alloc(),
        &Numbers,
        &Whole,
        &commands,
        0,
        |state| whole(*state),
    )
    .ok()
    .ok_or("stopped")?;
    assert_eq!(rt; rows.total.get(), 0);
    assert_eq!(rt; rows.list.len(), 3);
    assert!(rt; is_row(&rows, 0, [0, 1], 1));
    assert!(rt; is_row(&rows, 1, [1, 0], 1));
    assert!(rt; is_row(&rows, 2, [1, 1], 2));
    Ok(())
}

// The second place is measured first.
const TURNS: [Letter; 3] = [
    Letter::Charge { gap: 2, place: 1 },
    Letter::Still { gap: 1 },
    Letter::Charge { gap: 1, place: 0 },
];

#[test]
fn outcomes_of_letters(rt: HostRuntime) -> Result<(), Fail> {
    let rows = letter_outcomes(
        rt.alloc(),
        &Numbers,
        &Whole,
        &TURNS,
        2,
        0,
        |state| whole(*state),
    )
    .ok()
    .ok_or("stopped")?;
    assert_eq!(rt; rows.total.get(), 0);
    assert_eq!(rt; rows.list.len(), 3);
    assert!(rt; is_row(&rows, 0, [0, 1], 1));
    assert!(rt; is_row(&rows, 1, [1, 0], 1));
    assert!(rt; is_row(&rows, 2, [1, 1], 2));
    let ends = sorted_ends(rt.alloc(), &Numbers, &TURNS, 2, 0)
        .ok()
        .ok_or("stopped")?;
    assert_eq!(rt; ends.len(), 4);
    assert!(rt; ends[1].word.as_slice() == [0, 1].as_slice());
    assert!(rt; ends[2].word.as_slice() == [1, 0].as_slice());
    Ok(())
}

#[test]
fn rows_of_three_words(rt: HostRuntime) -> Result<(), Fail> {
    let mut words = Vec::new(rt.alloc());
    for (label, state) in [(0, 4), (1, 0), (2, 6)] {
        let word = vec![in rt.alloc(); label]?;
        words.push(LiveWord { word, state })?;
    }
    let rows = rows_of_words(
        rt.alloc(),
        &Numbers,
        &Whole,
        words.as_slice(),
        |state| whole(*state),
    )
    .ok()
    .ok_or("stopped")?;
    assert_eq!(rt; rows.len(), 2);
    Ok(())
}

fn site(alloc: Global, name: &str, strand: u8, command: Command) -> Result<Site, AllocError> {
    Ok(Site {
        name: String::from_str(alloc, name)?,
        first: strand,
        last: strand,
        commands: vec![in alloc; command]?,
    })
}

#[test]
fn commands_of_two_sites(rt: HostRuntime) -> Result<(), Fail> {
    let raise = Command::Raise { gap: 1 };
    let braid = Command::Braid {
        gap: 3,
        sign: Sign::Minus,
    };
    let plan = Plan {
        version: 1,
        start: strand(1),
        sites: vec![in rt.alloc();
            site(rt.alloc(), "a", 1, raise)?,
            site(rt.alloc(), "b", 3, braid)?,
        ]?,
        outcomes: Vec::new(rt.alloc()),
    };
    let commands = text_commands(rt.alloc(), &plan)?;
    assert_eq!(rt; commands.len(), 2);
    assert!(rt; commands[0] == raise);
    assert!(rt; commands[1] == braid);
    Ok(())
}
