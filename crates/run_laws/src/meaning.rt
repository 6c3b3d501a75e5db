ghost use Rattle.std.specs.Prelude.{◌≡◌, ℕ, Bool, Option};
ghost use Rattle.comb_laws.specs.Words.{Acts};
ghost use Rattle.word_runs.specs.Told.{Told, AreShapes};
ghost use Rattle.run_laws.specs.Meaning.{IsFaithful, IsExact};
ghost use Rattle.run_laws.specs.Rows.{IsWeighing};
ghost use Rattle.run_laws.specs.Schedules.{CommuteFar};

/// What an engine's states stand for: vectors, on which exchanges and projections act.
///
/// It owes one fact about each thing that an engine does (`specs/Meaning.antt`), that operators which are far apart
/// commute (`specs/Schedules.antt`), and that weights are those of the vectors (`specs/Rows.antt`). `told` is what the
/// engine tells of states, `Seen` and `Shape` are those of the engine.
pub trait Meaning: Drop {
    ghost Seen: { Type 0 };

    ghost Shape: { Type 0 };

    ghost Vector: { Type 0 };

    ghost told: { Self → Told Seen Shape };
    // how many labels there are
    ghost count: { Self → ℕ };

    // what exchanges and projections make of a vector
    ghost act: { Self → Acts Vector };
    // such as: over the strands, and zero off the paths
    ghost Good: { Self → Vector → Type 0 };
    // whether a vector is zero
    ghost nought: { Self → Vector → Bool };

    // whether a state stands for a vector
    ghost Stands: { Self → Seen → Vector → Type 0 };

    ghost Weight: { Type 0 };
    // the weight of a state, where it fits, and that of a vector
    ghost weigh: { Self → Seen → Option Weight };

    ghost weight: { Self → Vector → Weight };
    // whether a weight is zero
    ghost zero: { Self → Weight → Bool };

    /// How many labels there are.
    fn labels(&self) -> u8
        ensures { result ≡ count self.now };

    ghost shapes: { (e : Self) → AreShapes (told e) };

    ghost faithful: { (e : Self) → IsFaithful (told e) (count e) (act e) (Good e) (nought e) (Stands e) };

    ghost far: { (e : Self) → CommuteFar (told e).strands (act e) (Good e) };

    ghost weighing: { (e : Self) → IsWeighing (Good e) (nought e) (Stands e) (weigh e) (weight e) (zero e) };
}

/// An engine that makes nothing zero: exchanges can be undone, and no part has a projection that is zero.
pub trait Exact: Meaning {
    ghost exact: { (e : Self) → IsExact (Self.Meaning.told e) (Self.Meaning.act e) (Self.Meaning.Good e) (Self.Meaning.nought e) (Self.Meaning.Stands e) };
}
