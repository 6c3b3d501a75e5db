//! Comb vectors as an engine of runs.

ghost use Rattle.std.specs.Prelude.{ℕ, List};
ghost use Rattle.symbol_table.specs.Category.{draft_symbols, symbols};
ghost use Rattle.comb_laws.specs.Paths.{Vector};
ghost use Rattle.comb_run.specs.Evaluated.{State, comb_told};
ghost use Rattle.comb_run.specs.States.{state_of, IsState};
ghost use Rattle.comb_run.specs.Shapes.{comb_shapes};

use crate::parts::split;
use crate::state::{CombState, exchange};
use ring_laws::StarRing;
use std::alloc::{AllocError, Global};
use symbol_table::Category;
use word_runs::{Engine, Part, Step, StepFault};

/// A category on comb vectors over so many strands.
#[derive(Drop)]
pub(crate) struct CombEngine<'a, R: StarRing> {
    pub(crate) category: &'a Category<R>,
    pub(crate) strands: u8,
}

impl<'a, R: StarRing> Engine for CombEngine<'a, R> {
    type State = CombState<R>;

    ghost Seen = { State R.Elem };

    ghost Shape = { Unit {0} };

    ghost seen = { λ e s. state_of (R.ring e.category.now.ring) s };

    ghost told = { λ e. comb_told (symbols R.StarRing e.category.now) e.strands };

    ghost Of = { λ e s. IsState (symbols R.StarRing e.category.now) e.strands s };

    ghost shapes = { λ e. comb_shapes (draft_symbols (R.ring e.category.now.ring) R.held e.category.now) e.strands };

    fn path(&self, alloc: Global, _state: &CombState<R>, _k: u8) -> Result<Vec<u8>, AllocError> {
        Ok(Vec::new(alloc))
    }

    fn step(&self, alloc: Global, state: &mut CombState<R>, step: Step) -> Result<(), StepFault> {
        match step {
            Step::Raise { .. } => Ok(()),
            Step::Exchange { gap, sign } => exchange(alloc, self.category, state, gap, sign),
        }
    }

    fn split(
        &self,
        alloc: Global,
        state: &CombState<R>,
        k: u8,
    ) -> Result<Vec<Part<CombState<R>>>, StepFault> {
        split(alloc, self.category, state, k)
    }

    fn entries(&self, state: &CombState<R>) -> usize {
        state.vector.len()
    }
}
