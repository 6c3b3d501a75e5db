ghost use Rattle.std.specs.Prelude.{◌≡◌, ◌==◌, ℕ, Some};
ghost use Rattle.run_laws.specs.TwoQubits.{Pair, Two, stands, two_acts, two_exact, two_faithful, two_far, two_nought, two_shapes, two_told, two_weighing, two_weight};

use crate::laws::{live_words, living, order, rows, schedules};
use crate::{Exact, Meaning};

/// Two qubits over four strands: all that is asked of an engine holds of it.
#[derive(Drop)]
struct TwoQubits;

impl Meaning for TwoQubits {
    ghost Seen = { Pair };

    ghost Shape = { ℕ };

    ghost Vector = { Two };

    ghost told = { λ _. two_told };

    ghost count = { λ _. 2 };

    ghost act = { λ _. two_acts };

    ghost Good = { λ _ v. Unit {0} };

    ghost nought = { λ _. two_nought };

    ghost Stands = { λ _ s v. stands s v };

    ghost Weight = { ℕ };

    ghost weigh = { λ _ s. Some (two_weight s.vector) };

    ghost weight = { λ _. two_weight };

    ghost zero = { λ _ x. x == 0 };

    ghost shapes = { λ _. two_shapes };

    ghost faithful = { λ _. two_faithful };

    ghost far = { λ _. two_far };

    ghost weighing = { λ _. two_weighing };

    fn labels(&self) -> u8 {
        2
    }
}

impl Exact for TwoQubits {
    ghost exact = { λ _. two_exact };
}

#[test]
fn an_engine_that_meets_all(rt: HostRuntime) {
    let engine = TwoQubits;
    schedules(&engine);
    live_words(&engine);
    order(&engine);
    living(&engine);
    rows(&engine);
    assert_eq!(rt; engine.labels(), 2);
}
