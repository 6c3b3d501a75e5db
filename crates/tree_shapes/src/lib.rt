//! Labelled fusion trees, and their shapes.
//!
//! Glossary:
//! - *labelled tree*: a fusion tree whose leaves are strands and whose nodes carry the label of their
//!   charge (`specs/Labelled.antt`).
//! - *outline*: a tree without labels, whose gaps count from 1 from left to right (`specs/Outlines.antt`).
//! - *around*: an outline with a hole; a rotation is one in a hole (`specs/Contexts.antt`).
//! - *pair*: a node over two strands; *settling* raises what stands between (`specs/Settling.antt`).
//! - *links*: for each gap the gaps of its node's children and parent (`specs/Links.antt`).
//! - *left-combed*: every right child is a strand (`specs/Labelled.antt`).
#![tactic(auto)]

ghost use Rattle.std.specs.Prelude.{◌≡◌, IfOk};
ghost use Rattle.tree_shapes.specs.Views.{labelled};
ghost use Rattle.tree_shapes.specs.Labelled.{Joined, Strand, is_strand, is_left_comb as is_comb};

mod limits;
mod rotation;
mod shape;
mod tree;
mod tree_links;

pub use limits::{KEY_LIMIT, SETTLE_LIMIT, STRAND_LIMIT};
pub use shape::{Settling, Shape};
use std::alloc::{AllocError, Global};
pub use tree::{Fork, Tree};

/// The tree of one strand with this label.
pub fn strand(label: u8) -> Tree
    ensures { labelled result ≡ Strand label }
{
    Tree::Leaf(label)
}

/// The tree whose top node has this label and these two children.
pub fn join(alloc: Global, left: Tree, right: Tree, label: u8) -> Result<Tree, AllocError>
    ensures { IfOk result (λ t. labelled t ≡ Joined (labelled left) (labelled right) label) }
{
    Ok(Tree::Node(Box::new(alloc, Fork { left, right, label })?))
}

/// Whether every right child is a strand.
pub fn is_left_comb(tree: &Tree) -> bool
    ensures { result ≡ is_comb (labelled tree.now) }
{
    match tree {
        Tree::Leaf(_) => true,
        Tree::Node(fork) => is_leaf(&fork.right) && is_left_comb(&fork.left),
    }
}

fn is_leaf(tree: &Tree) -> bool
    ensures { result ≡ is_strand (labelled tree.now) }
{
    match tree {
        Tree::Leaf(_) => true,
        Tree::Node(_) => false,
    }
}

#[cfg(test)]
mod tests;
