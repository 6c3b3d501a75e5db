//! The links of a tree.

ghost use Rattle.std.specs.Prelude.{◌≡◌, ◌<◌, ◌≤◌, ◌+◌, length, slice_index};
ghost use Rattle.tree_shapes.specs.Labelled.{size};
ghost use Rattle.tree_shapes.specs.Views.{labelled};
ghost use Rattle.tree_shapes.specs.Links.{Joins, Sets, rows_of};
ghost use Rattle.tree_shapes.specs.Outlines.{outline_of};
ghost use Rattle.tree_shapes.specs.declared.limits.TheConstants.{STRAND_LIMIT};

use crate::tree::Tree;

/// A part of a tree: how many strands it has, and the gap of its top, 0 for a strand.
#[derive(Drop)]
pub(crate) struct Part {
    pub(crate) leaves: u8,
    pub(crate) top: u8,
}

/// Links a node to the tops of its children.
fn join(left: &mut [u8], right: &mut [u8], parent: &mut [u8], gap: u8, first: u8, second: u8)
    requires left { length left.old ≡ STRAND_LIMIT }
    requires right { length right.old ≡ STRAND_LIMIT }
    requires parent { length parent.old ≡ STRAND_LIMIT }
    requires gap { gap < STRAND_LIMIT }
    requires first { first < STRAND_LIMIT }
    requires second { second < STRAND_LIMIT }
    ensures { Joins gap first second (rows_of left.old right.old parent.old) (rows_of left.new right.new parent.new) }
{
    left[gap as usize] = first;
    right[gap as usize] = second;
    parent[first as usize] = gap;
    parent[second as usize] = gap;
}

/// Links the gaps of a tree whose first strand is strand start + 1. What the parent of its top is stays open.
pub(crate) fn link_tree(
    tree: &Tree,
    start: u8,
    left: &mut [u8],
    right: &mut [u8],
    parent: &mut [u8],
) -> Part
    requires left { length left.old ≡ STRAND_LIMIT }
    requires right { length right.old ≡ STRAND_LIMIT }
    requires parent { length parent.old ≡ STRAND_LIMIT }
    requires room { start + size (labelled tree.now) ≤ STRAND_LIMIT }
    ensures leaves { result.leaves ≡ size (labelled tree.now) }
    ensures set { Sets (outline_of (labelled tree.now)) start result.top (rows_of left.old right.old parent.old) (rows_of left.new right.new parent.new) }
{
    match tree {
        Tree::Leaf(_) => Part { leaves: 1, top: 0 },
        Tree::Node(fork) => {
            let first = link_tree(&fork.left, start, left, right, parent);
            let gap = start + first.leaves;
            let second = link_tree(&fork.right, gap, left, right, parent);
            join(left, right, parent, gap, first.top, second.top);
            Part {
                leaves: first.leaves + second.leaves,
                top: gap,
            }
        }
    }
}
