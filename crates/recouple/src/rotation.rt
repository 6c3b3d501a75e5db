//! Where the labels stand that a raise reads.

ghost use Rattle.std.specs.Prelude.{◌≡◌, ◌<◌, ◌+◌, length, All};
ghost use Rattle.tree_shapes.specs.Outlines.{size};
ghost use Rattle.recouple.specs.Rotations.{IsSpot, label_at, left_spot as spec_left_spot, right_spot as spec_right_spot, rotation_of};

use tree_shapes::Shape;

/// Where the label at the top of a subtree stands: strands count from 0, gaps from 1.
#[derive(Clone, Copy, Debug, Drop)]
pub(crate) enum Spot {
    AtStrand(u8),
    AtGap(u8),
}

/// A node and its parent, by their gaps, and the tops of the three subtrees under them, from left to right.
#[derive(Clone, Copy, Debug, Drop)]
pub(crate) struct Rotation {
    pub(crate) node: u8,
    pub(crate) parent: u8,
    pub(crate) first: Spot,
    pub(crate) second: Spot,
    pub(crate) third: Spot,
}

/// The label at a spot.
pub(crate) fn label_at(strands: &[u8], key: &[u8], spot: Spot) -> u8
    requires spot { IsSpot (length strands.now) spot }
    requires long { length strands.now ≡ length key.now + 1 }
    ensures { result ≡ label_at strands.now key.now spot }
{
    match spot {
        Spot::AtStrand(i) => strands[i as usize],
        Spot::AtGap(gap) => key[gap as usize - 1],
    }
}

/// The top of the left child of a node.
fn left_spot(shape: &Shape, k: u8) -> Spot
    requires some { 0 < k }
    requires gap { k < size shape.now }
    ensures { result ≡ spec_left_spot shape.now k }
{
    match shape.left(k) {
        None => Spot::AtStrand(k - 1),
        Some(gap) => Spot::AtGap(gap),
    }
}

/// The top of the right child of a node.
fn right_spot(shape: &Shape, k: u8) -> Spot
    requires some { 0 < k }
    requires gap { k < size shape.now }
    ensures { result ≡ spec_right_spot shape.now k }
{
    match shape.right(k) {
        None => Spot::AtStrand(k),
        Some(gap) => Spot::AtGap(gap),
    }
}

/// The rotation of a node under its parent: none at the top.
pub(crate) fn rotation_at(shape: &Shape, k: u8) -> Option<Rotation>
    requires some { 0 < k }
    requires gap { k < size shape.now }
    ensures { result ≡ rotation_of shape.now k }
{
    let parent = shape.parent(k)?;
    if k < parent {
        Some(Rotation {
            node: k,
            parent,
            first: left_spot(shape, k),
            second: right_spot(shape, k),
            third: right_spot(shape, parent),
        })
    } else {
        Some(Rotation {
            node: k,
            parent,
            first: left_spot(shape, parent),
            second: left_spot(shape, k),
            third: right_spot(shape, k),
        })
    }
}
