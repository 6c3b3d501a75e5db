ghost use Rattle.std.specs.Prelude.{ℕ, ◌≡◌, ◌+◌, ◌<◌, ◌≤◌, Some, List, ◌++◌, length, slice_index};
ghost use Rattle.tree_shapes.specs.Links.{IsChain, link_in};
ghost use Rattle.tree_shapes.specs.Settling.{Settles, is_pair_at, settle_gaps};
ghost use Rattle.tree_shapes.specs.Labelled.{size as tree_size};
ghost use Rattle.tree_shapes.specs.Views.{labelled};
ghost use Rattle.tree_shapes.specs.Outlines.{outline_of, size, left_gap, right_gap, parent_gap, gap_of, raise_at};
ghost use Rattle.tree_shapes.specs.declared.limits.TheConstants.{SETTLE_LIMIT, STRAND_LIMIT};

use crate::limits::{SETTLE_LIMIT, STRAND_LIMIT};
use crate::rotation::{turn_left, turn_right};
use crate::tree::Tree;
use crate::tree_links::link_tree;
use arrayvec::ArrayVec;
use std::marker::Model;

/// The gaps that are raised to make a node a pair, in order.
pub type Settling = ArrayVec<u8, SETTLE_LIMIT>;

/// The shape of a fusion tree of 2 to [`STRAND_LIMIT`] strands, as links by gap.
///
/// It is seen as the outline, whose gaps from left to right are 1 to n - 1. Each row has one place for each gap, with 0 for
/// none; gap 0 is no node, and has the top as its right child. No call takes memory.
#[derive(Drop)]
pub struct Shape {
    leaves: u8,
    left: [u8; STRAND_LIMIT],
    right: [u8; STRAND_LIMIT],
    parent: [u8; STRAND_LIMIT],
}

impl Model for Shape {
    ghost use Rattle.tree_shapes.specs.Outlines.{Outline};
    ghost use Rattle.tree_shapes.specs.Codes.{coded_outline};
    ghost use Rattle.tree_shapes.specs.Links.{IsShape, outline_in, rows_of};

    ghost Value = { Outline };

    ghost coded = { coded_outline };

    ghost view = { λ s. outline_in s.leaves (rows_of s.left s.right s.parent) };

    ghost invariant = { λ s. IsShape s.leaves (rows_of s.left s.right s.parent) };
}

impl Shape {
    /// The shape of a tree of 2 to [`STRAND_LIMIT`] strands.
    pub fn from_tree(tree: &Tree) -> Shape
        requires some { 2 ≤ tree_size (labelled tree.now) }
        requires few { tree_size (labelled tree.now) ≤ STRAND_LIMIT }
        ensures { result ≡ outline_of (labelled tree.now) }
    {
        let mut left = [0; STRAND_LIMIT];
        let mut right = [0; STRAND_LIMIT];
        let mut parent = [0; STRAND_LIMIT];
        let whole = link_tree(tree, 0, &mut left, &mut right, &mut parent);
        right[0] = whole.top;
        parent[whole.top as usize] = 0;
        Shape {
            leaves: whole.leaves,
            left,
            right,
            parent,
        }
    }

    /// How many strands there are: 2 to [`STRAND_LIMIT`].
    pub fn leaves(&self) -> u8
        ensures leaves { result ≡ size self.now }
        ensures some { 2 ≤ size self.now }
        ensures few { size self.now ≤ STRAND_LIMIT }
    {
        self.leaves
    }

    /// The gap of the node at the top.
    pub fn top(&self) -> u8
        ensures { gap_of self.now 0 ≡ Some result }
    {
        self.right[0]
    }

    /// The gap of the left child of a node: none where that child is a strand.
    pub fn left(&self, k: u8) -> Option<u8>
        requires some { 0 < k }
        requires gap { k < size self.now }
        ensures { result ≡ left_gap self.now k }
    {
        link(&self.left, k)
    }

    /// The gap of the right child of a node: none where that child is a strand.
    pub fn right(&self, k: u8) -> Option<u8>
        requires some { 0 < k }
        requires gap { k < size self.now }
        ensures { result ≡ right_gap self.now k }
    {
        link(&self.right, k)
    }

    /// The gap of the parent of a node: none at the top.
    pub fn parent(&self, k: u8) -> Option<u8>
        requires some { 0 < k }
        requires gap { k < size self.now }
        ensures { result ≡ parent_gap self.now k }
    {
        link(&self.parent, k)
    }

    /// Whether both children of a node are strands.
    pub fn is_pair(&self, k: u8) -> bool
        requires some { 0 < k }
        requires gap { k < size self.now }
        ensures { result ≡ is_pair_at self.now k }
    {
        self.left(k).is_none() && self.right(k).is_none()
    }

    /// The gaps to raise, one after another, so that node k becomes a pair: while its left child is a node, that node;
    /// then while its right child is one, that node. At most one for each other node.
    pub fn settle_path(&self, k: u8) -> Settling
        requires some { 0 < k }
        requires gap { k < size self.now }
        ensures value { result.items ≡ settle_gaps self.now k }
        ensures settles { Settles k self.now result.items }
        ensures few { length result.items + 2 ≤ size self.now }
    {
        let mut path = ArrayVec::new();
        let left = self.left[k as usize];
        follow(&self.right, left, &mut path);
        let right = self.right[k as usize];
        follow(&self.left, right, &mut path);
        path
    }

    /// Raises a node over its parent: `p(k(A,B),C)` becomes `k(A,p(B,C))`, and `p(A,k(B,C))` becomes `k(p(A,B),C)`. At the
    /// top nothing changes. Takes constant time.
    pub fn raise(&mut self, k: u8)
        requires some { 0 < k }
        requires gap { k < size self.old }
        ensures { self.new ≡ raise_at k self.old 0 }
    {
        let p = self.parent[k as usize];
        if p == 0 {
            return;
        }
        if k < p {
            turn_right(&mut self.left, &mut self.right, &mut self.parent, k, p);
        } else {
            turn_left(&mut self.left, &mut self.right, &mut self.parent, k, p);
        }
    }

    /// The same shape again.
    pub fn copy(&self) -> Shape
        ensures { result ≡ self.now }
    {
        Shape {
            leaves: self.leaves,
            left: self.left,
            right: self.right,
            parent: self.parent,
        }
    }
}

/// What a row has for a gap: none where it has 0.
fn link(row: &[u8], k: u8) -> Option<u8>
    requires long { length row.now ≡ STRAND_LIMIT }
    requires gap { k < STRAND_LIMIT }
    ensures { result ≡ link_in (slice_index row.now k) }
{
    match row[k as usize] {
        0 => None,
        gap => Some(gap),
    }
}

/// Appends the gaps from one on along a row, up to a strand.
fn follow(row: &[u8], first: u8, path: &mut Settling)
    requires long { length row.now ≡ STRAND_LIMIT }
    requires chain { (gaps : List ℕ) × IsChain (slice_index row.now) first gaps × (length path.old.items + length gaps ≤ SETTLE_LIMIT) }
    ensures { (gaps : List ℕ) → IsChain (slice_index row.now) first gaps → path.new.items ≡ path.old.items ++ gaps }
{
    let mut gap = first;
    while gap != 0 {
        path.push(gap);
        gap = row[gap as usize];
    }
}
