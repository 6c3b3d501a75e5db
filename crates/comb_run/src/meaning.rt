//! What the states of the engine stand for.

ghost use Rattle.std.specs.Prelude.{ℕ, List};
ghost use Rattle.symbol_table.specs.Category.{draft_symbols, symbols};
ghost use Rattle.comb_laws.specs.Paths.{Vector};
ghost use Rattle.comb_laws.specs.Words.{comb_acts};
ghost use Rattle.run_laws.specs.Combs.{comb_nought, comb_weight};
ghost use Rattle.comb_run.specs.Evaluated.{State, comb_told, state_weight_at};
ghost use Rattle.comb_run.specs.Meaning.{IsLawfulVector};
ghost use Rattle.comb_run.specs.Shapes.{comb_shapes};
ghost use Rattle.comb_run.specs.EngineFacts.{Stands, engine_far, engine_faithful, engine_weighing};

use crate::engine::CombEngine;
use ring_laws::StarRing;
use run_laws::Meaning;

/// A state stands for its strands and its vector over them, where the symbols are those of a category.
impl<'a, R: StarRing> Meaning for CombEngine<'a, R> {
    ghost Seen = { State R.Elem };

    ghost Shape = { Unit {0} };

    ghost Vector = { List ℕ × Vector R.Elem };

    ghost told = { λ e. comb_told (symbols R.StarRing e.category.now) e.strands };

    ghost count = { λ e. e.category.now.rules.count };

    ghost act = { λ e. comb_acts (symbols R.StarRing e.category.now) };

    ghost Good = { λ e v. IsLawfulVector (symbols R.StarRing e.category.now) e.strands v };

    ghost nought = { λ e. comb_nought (symbols R.StarRing e.category.now) };

    ghost Stands = { λ e s v. Stands s v };

    ghost Weight = { R.Elem };

    ghost weigh = { λ e. state_weight_at (symbols R.StarRing e.category.now) };

    ghost weight = { λ e. comb_weight (symbols R.StarRing e.category.now) };

    ghost zero = { λ e. R.held.is_zero };

    ghost shapes = { λ e. comb_shapes (draft_symbols (R.ring e.category.now.ring) R.held e.category.now) e.strands };

    ghost faithful = { λ e. engine_faithful (draft_symbols (R.ring e.category.now.ring) R.held e.category.now) (R.laws e.category.now.ring) e.strands };

    ghost far = { λ e. engine_far (draft_symbols (R.ring e.category.now.ring) R.held e.category.now) (R.laws e.category.now.ring) e.strands };

    ghost weighing = { λ e. engine_weighing (draft_symbols (R.ring e.category.now.ring) R.held e.category.now) (R.laws e.category.now.ring) e.strands };

    fn labels(&self) -> u8 {
        self.category.rules().count()
    }
}
