//! The start of a run: a tree with its own labels.

ghost use Rattle.std.specs.Prelude.{◌≡◌, ◌≤◌, ◌+◌, ◌++◌, ◌∷◌, [], length, IfOk, true};
ghost use Rattle.fusion_rules.specs.Fusion.{fuses};
ghost use Rattle.symbol_table.specs.Category.{symbols};
ghost use Rattle.tree_shapes.specs.Labelled.{is_admissible, leaves, node_labels, size};
ghost use Rattle.tree_shapes.specs.Outlines.{outline_of};
ghost use Rattle.tree_shapes.specs.Views.{labelled};
ghost use Rattle.tree_shapes.specs.declared.limits.TheConstants.{KEY_LIMIT, STRAND_LIMIT};
ghost use Rattle.comb_laws.specs.Amplitudes.{start_vector};
ghost use Rattle.recouple.specs.States.{IsStateOf, comb};

use crate::state::TreeState;
use amp_store::{Amps, Key};
use arrayvec::ArrayVec;
use ring_laws::StarRing;
use std::alloc::{AllocError, Global};
use symbol_table::Category;
use symbol_table::laws::all_labels;
use tree_shapes::{STRAND_LIMIT, Shape, Tree};

/// Adds the labels of a tree's strands, and those of its nodes, each from left to right.
fn push_labels(tree: &Tree, strands: &mut ArrayVec<u8, STRAND_LIMIT>, key: &mut Key)
    requires strands { length strands.old.items + size (labelled tree.now) ≤ STRAND_LIMIT }
    requires key { length key.old.items + size (labelled tree.now) ≤ KEY_LIMIT + 1 }
    ensures strands { strands.new.items ≡ strands.old.items ++ leaves (labelled tree.now) }
    ensures key { key.new.items ≡ key.old.items ++ node_labels (labelled tree.now) }
    ensures more_strands { length strands.new.items ≡ length strands.old.items + size (labelled tree.now) }
    ensures longer_key { length key.new.items + 1 ≡ length key.old.items + size (labelled tree.now) }
{
    match tree {
        Tree::Leaf(label) => strands.push(*label),
        Tree::Node(fork) => {
            push_labels(&fork.left, strands, key);
            key.push(fork.label);
            push_labels(&fork.right, strands, key);
        }
    }
}

/// The state of an admissible tree: amplitude one at its own labels. It stands for the tree's start vector, the path
/// amplitudes of the tree from the unit.
///
/// The tree has 2 to [`STRAND_LIMIT`] strands. An error comes for want of memory alone.
pub fn start<R: StarRing>(
    alloc: Global,
    category: &Category<R>,
    tree: &Tree,
) -> Result<TreeState<R>, AllocError>
    requires some { 2 ≤ size (labelled tree.now) }
    requires few { size (labelled tree.now) ≤ STRAND_LIMIT }
    requires admissible { is_admissible (fuses category.now.rules) (labelled tree.now) ≡ true }
    ensures strands { IfOk result (λ s. s.strands ≡ leaves (labelled tree.now)) }
    ensures shape { IfOk result (λ s. s.shape ≡ outline_of (labelled tree.now)) }
    ensures amps { IfOk result (λ s. s.amps ≡ (node_labels (labelled tree.now), (R.ring category.now.ring).one) ∷ []) }
    ensures of { IfOk result (IsStateOf (symbols R.StarRing category.now)) }
    ensures stands { IfOk result (λ s. comb (symbols R.StarRing category.now) s ≡ start_vector (symbols R.StarRing category.now) (labelled tree.now)) }
{
    // What the symbols obey at all labels.
    all_labels(category);
    let mut strands = ArrayVec::new();
    let mut key = Key::new();
    push_labels(tree, &mut strands, &mut key);
    let mut amps = Amps::new(alloc);
    amps.put(key, category.ring().one())?;
    Ok(TreeState::with_parts(strands, Shape::from_tree(tree), amps))
}
