//! Rotations of links.

ghost use Rattle.std.specs.Prelude.{◌≡◌, ◌≢◌, ◌<◌, ◌≤◌, length, slice_index, slice_set};
ghost use Rattle.tree_shapes.specs.Links.{Ready, TurnsRight, TurnsLeft, rows_of};
ghost use Rattle.tree_shapes.specs.declared.limits.TheConstants.{STRAND_LIMIT};

/// Gives k the parent g of p, p the parent k, and b the parent p.
fn hand_over(parent: &mut [u8], k: u8, p: u8, b: u8, g: u8)
    requires parent { length parent.old ≡ STRAND_LIMIT }
    requires k { k < STRAND_LIMIT }
    requires p { p < STRAND_LIMIT }
    requires b { b < STRAND_LIMIT }
    ensures { parent.new ≡ slice_set (slice_set (slice_set parent.old b p) p k) k g }
{
    parent[b as usize] = p;
    parent[p as usize] = k;
    parent[k as usize] = g;
}

/// Raises node k, the left child of p. No two of k, p and what is linked to them are the same.
pub(crate) fn turn_right(left: &mut [u8], right: &mut [u8], parent: &mut [u8], k: u8, p: u8)
    requires left { length left.old ≡ STRAND_LIMIT }
    requires right { length right.old ≡ STRAND_LIMIT }
    requires parent { length parent.old ≡ STRAND_LIMIT }
    requires k { k < STRAND_LIMIT }
    requires ready { Ready k p (slice_index right.old k) (slice_index parent.old p) }
    ensures { TurnsRight k p (slice_index right.old k) (slice_index parent.old p) (rows_of left.old right.old parent.old) (rows_of left.new right.new parent.new) }
{
    let b = right[k as usize];
    let g = parent[p as usize];
    left[p as usize] = b;
    right[k as usize] = p;
    hand_over(parent, k, p, b, g);
    if p < g {
        left[g as usize] = k;
    } else {
        right[g as usize] = k;
    }
}

/// Raises node k, the right child of p. No two of k, p and what is linked to them are the same.
pub(crate) fn turn_left(left: &mut [u8], right: &mut [u8], parent: &mut [u8], k: u8, p: u8)
    requires left { length left.old ≡ STRAND_LIMIT }
    requires right { length right.old ≡ STRAND_LIMIT }
    requires parent { length parent.old ≡ STRAND_LIMIT }
    requires k { k < STRAND_LIMIT }
    requires ready { Ready k p (slice_index left.old k) (slice_index parent.old p) }
    ensures { TurnsLeft k p (slice_index left.old k) (slice_index parent.old p) (rows_of left.old right.old parent.old) (rows_of left.new right.new parent.new) }
{
    let b = left[k as usize];
    let g = parent[p as usize];
    right[p as usize] = b;
    left[k as usize] = p;
    hand_over(parent, k, p, b, g);
    if p < g {
        left[g as usize] = k;
    } else {
        right[g as usize] = k;
    }
}
