//! The start tree.

ghost use Rattle.std.specs.Prelude.{◌≡◌, ◌≤◌, ◌<◌, ◌%◌, IfOk};
ghost use Rattle.tree_shapes.specs.Views.{labelled};
ghost use Rattle.category_maker.specs.MadeProgram.{comb, strands_sum};

use std::alloc::{AllocError, Global};
use tree_shapes::{Tree, join, strand};

/// How many strands the start has.
pub(crate) const STRANDS: u8 = 16;

/// The left comb with so many nodes over the strands from 1 on.
pub(crate) fn comb(alloc: Global, n: u8, nodes: u8) -> Result<Tree, AllocError>
    requires some { 0 < n }
    requires few { n ≤ 12 }
    requires nodes { nodes ≤ 15 }
    ensures { IfOk result (λ tree. labelled tree ≡ comb n nodes) }
{
    if nodes == 0 {
        return Ok(strand(1 % n));
    }
    let left = comb(alloc, n, nodes - 1)?;
    let right = strand((nodes + 1) % n);
    join(alloc, left, right, charge(n, nodes + 1))
}

/// The sum of the labels of the strands 1 to k, modulo n.
fn charge(n: u8, k: u8) -> u8
    requires some { 0 < n }
    requires few { n ≤ 12 }
    requires strands { k ≤ 16 }
    ensures { result ≡ strands_sum n k % n }
{
    strands_sum(n, k) % n
}

/// The sum of the labels of the strands 1 to k.
fn strands_sum(n: u8, k: u8) -> u8
    requires some { 0 < n }
    requires few { n ≤ 12 }
    requires strands { k ≤ 16 }
    ensures { result ≡ strands_sum n k }
{
    let mut sum = 0;
    for before in 0..k {
        sum += (before + 1) % n;
    }
    sum
}
