//! States on trees as an engine of runs.

ghost use Rattle.std.specs.Prelude.{ℕ, List};
ghost use Rattle.symbol_table.specs.Category.{draft_symbols, symbols};
ghost use Rattle.tree_shapes.specs.Outlines.{Outline};
ghost use Rattle.recouple.specs.States.{State};
ghost use Rattle.runner.specs.Trees.{IsTreeState, tree_told};
ghost use Rattle.runner.specs.Shapes.{tree_shapes};

use crate::steps::{exchange_pair, raise_node, split_pair};
use recouple::TreeState;
use ring_laws::StarRing;
use std::alloc::{AllocError, Global};
use symbol_table::Category;
use word_runs::{Engine, Part, Step, StepFault};

/// A category on states of trees with so many strands, whatever their shape.
#[derive(Drop)]
pub struct TreeEngine<'a, R: StarRing> {
    pub category: &'a Category<R>,
    pub strands: u8,
}

impl<'a, R: StarRing> Engine for TreeEngine<'a, R> {
    type State = TreeState<R>;

    ghost Seen = { State R.Elem };

    ghost Shape = { Outline };

    ghost seen = { λ e s. s };

    ghost told = { λ e. tree_told (symbols R.StarRing e.category.now) e.strands };

    ghost Of = { λ e s. IsTreeState (symbols R.StarRing e.category.now) e.strands s };

    ghost shapes = { λ e. tree_shapes (draft_symbols (R.ring e.category.now.ring) R.held e.category.now) e.strands };

    fn path(&self, alloc: Global, state: &TreeState<R>, k: u8) -> Result<Vec<u8>, AllocError> {
        Vec::from_slice(alloc, state.shape().settle_path(k).as_slice())
    }

    fn step(&self, _alloc: Global, state: &mut TreeState<R>, step: Step) -> Result<(), StepFault> {
        match step {
            Step::Raise { gap } => raise_node(self.category, state, gap),
            Step::Exchange { gap, sign } => exchange_pair(self.category, state, gap, sign),
        }
    }

    fn split(
        &self,
        alloc: Global,
        state: &TreeState<R>,
        k: u8,
    ) -> Result<Vec<Part<TreeState<R>>>, StepFault> {
        let parts = split_pair(alloc, self.category, state, k)?;
        Ok(parts)
    }

    fn entries(&self, state: &TreeState<R>) -> usize {
        state.amps().len()
    }
}
