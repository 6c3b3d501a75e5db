ghost use Rattle.std.specs.Prelude.{◌≡◌};
ghost use Rattle.tree_shapes.specs.Labelled.{label};
ghost use Rattle.tree_shapes.specs.Views.{labelled};
ghost use Rattle.program_text.specs.Form.{labels_below};

use tree_shapes::Tree;

/// The most commands of a program.
pub const COMMAND_LIMIT: usize = 4096;

/// Whether every label of a tree is below a count.
pub(crate) fn labels_below(count: u8, tree: &Tree) -> bool
    ensures { result ≡ labels_below count (labelled tree.now) }
{
    match tree {
        Tree::Leaf(label) => *label < count,
        Tree::Node(fork) => {
            fork.label < count
                && labels_below(count, &fork.left)
                && labels_below(count, &fork.right)
        }
    }
}

/// The label at the top.
pub(crate) fn label(tree: &Tree) -> u8
    ensures { result ≡ label (labelled tree.now) }
{
    match tree {
        Tree::Leaf(label) => *label,
        Tree::Node(fork) => fork.label,
    }
}
