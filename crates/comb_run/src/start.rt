//! The start of a run: a left-combed tree as a comb vector.

ghost use Rattle.std.specs.Prelude.{◌≡◌, ◌≤◌, ◌+◌, ◌++◌, List, length, IfOk, true};
ghost use Rattle.symbol_table.specs.Category.{symbols};
ghost use Rattle.fusion_rules.specs.Fusion.{fuses};
ghost use Rattle.tree_shapes.specs.Labelled.{is_left_comb, leaves, size};
ghost use Rattle.program_text.specs.WellFormed.{IsAdmittedStart};
ghost use Rattle.tree_shapes.specs.Views.{labelled};
ghost use Rattle.comb_laws.specs.Paths.{is_path};
ghost use Rattle.comb_laws.specs.Amplitudes.{own_path, own_vector};
ghost use Rattle.tree_shapes.specs.declared.limits.TheConstants.{STRAND_LIMIT};
ghost use Rattle.comb_run.specs.Entries.{path_of, vector_of, AreEntries};
ghost use Rattle.comb_run.specs.States.{state_of, IsState};
ghost use Rattle.comb_run.specs.declared.key.TheConstants.{PATH_LIMIT};

use crate::key::{Key, Strands};
use crate::state::CombState;
use crate::vector::CombVector;
use ring_laws::StarRing;
use std::alloc::{AllocError, Global};
use symbol_table::Category;
use tree_shapes::Tree;

/// Adds the labels of a tree's strands, from left to right.
fn push_leaves(tree: &Tree, strands: &mut Strands)
    requires { length strands.old.items + length (leaves (labelled tree.now)) ≤ STRAND_LIMIT }
    ensures { strands.new.items ≡ strands.old.items ++ leaves (labelled tree.now) }
{
    match tree {
        Tree::Leaf(label) => strands.push(*label),
        Tree::Node(fork) => {
            push_leaves(&fork.left, strands);
            push_leaves(&fork.right, strands);
        }
    }
}

/// The key of a left-combed tree's own labels.
fn own_key(tree: &Tree) -> Key
    requires { length (own_path (labelled tree.now)) ≤ PATH_LIMIT }
    ensures path { path_of (leaves (labelled tree.now)) result.items ≡ own_path (labelled tree.now) }
    ensures long { length result.items + 2 ≡ length (own_path (labelled tree.now)) }
{
    match tree {
        Tree::Leaf(_) => Key::new(),
        Tree::Node(fork) => {
            let mut key = own_key(&fork.left);
            key.push(fork.label);
            key
        }
    }
}

/// The vector that is one at a left-combed tree's own path, and zero elsewhere.
fn start_vector<R: StarRing>(
    alloc: Global,
    category: &Category<R>,
    tree: &Tree,
) -> Result<CombVector<R>, AllocError>
    requires few { length (own_path (labelled tree.now)) ≤ PATH_LIMIT }
    requires path { is_path (symbols R.StarRing category.now) (leaves (labelled tree.now)) (own_path (labelled tree.now)) ≡ true }
    ensures vector { IfOk result (λ v. vector_of (R.ring category.now.ring) (leaves (labelled tree.now)) v ≡ own_vector (R.ring category.now.ring) (labelled tree.now)) }
    ensures entries { IfOk result (λ v. AreEntries (symbols R.StarRing category.now) (leaves (labelled tree.now)) v) }
{
    let mut vector = CombVector::new(alloc);
    vector.put(own_key(tree), category.ring().one())?;
    Ok(vector)
}

/// The state in which a run begins: the strands of a left-combed tree, and its own vector.
pub(crate) fn start_state<R: StarRing>(
    alloc: Global,
    category: &Category<R>,
    tree: &Tree,
) -> Result<CombState<R>, AllocError>
    requires start { IsAdmittedStart (fuses category.now.rules) category.now.rules.count (labelled tree.now) }
    requires left { is_left_comb (labelled tree.now) ≡ true }
    ensures state { IfOk result (λ s. IsState (symbols R.StarRing category.now) (size (labelled tree.now)) s) }
    ensures value { let c = symbols R.StarRing category.now in
        IfOk result (λ s. state_of c.ring s ≡ (leaves (labelled tree.now), own_vector c.ring (labelled tree.now))) }
{
    // Tells that there are labels, and that the unit times a label is that label.
    let _count = category.rules().count();
    let mut strands = Strands::new();
    push_leaves(tree, &mut strands);
    let vector = start_vector(alloc, category, tree)?;
    Ok(CombState { strands, vector })
}
