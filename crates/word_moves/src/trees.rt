//! Start trees.

ghost use Rattle.std.specs.Prelude.{◌≡◌, ◌≤◌};
ghost use Rattle.tree_shapes.specs.Labelled.{size};
ghost use Rattle.tree_shapes.specs.Views.{labelled};
ghost use Rattle.tree_shapes.specs.declared.limits.TheConstants.{STRAND_LIMIT};
ghost use Rattle.word_moves.specs.Verdicts.{same_tree};

use tree_shapes::Tree;

/// Whether two trees are the same, with their labels.
pub(crate) fn same_tree(left: &Tree, right: &Tree) -> bool
    ensures { result ≡ same_tree (labelled left.now) (labelled right.now) }
{
    match (left, right) {
        (Tree::Leaf(a), Tree::Leaf(b)) => a == b,
        (Tree::Node(fork), Tree::Node(other)) => {
            fork.label == other.label
                && (same_tree(&fork.left, &other.left) && same_tree(&fork.right, &other.right))
        }
        (Tree::Leaf(_), Tree::Node(_)) | (Tree::Node(_), Tree::Leaf(_)) => false,
    }
}

pub(crate) fn count_strands(tree: &Tree) -> u8
    requires { size (labelled tree.now) ≤ STRAND_LIMIT }
    ensures { result ≡ size (labelled tree.now) }
{
    match tree {
        Tree::Leaf(_) => 1,
        Tree::Node(fork) => count_strands(&fork.left) + count_strands(&fork.right),
    }
}
