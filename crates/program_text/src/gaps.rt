//! The nodes of a tree, by their gaps.

ghost use Rattle.std.specs.Prelude.{◌≡◌, ◌+◌, ◌<◌, ◌≤◌, ◌^◌, ◌↔◌, true, None, IfSome};
ghost use Rattle.fusion_rules.specs.Fusion.{fuses};
ghost use Rattle.tree_shapes.specs.Labelled.{is_admissible, leaves, size};
ghost use Rattle.tree_shapes.specs.Views.{labelled};
ghost use Rattle.tree_shapes.specs.declared.limits.TheConstants.{STRAND_LIMIT};
ghost use Rattle.program_text.specs.Form.{labels_below};
ghost use Rattle.program_text.specs.Gaps.{IsFirstBad, bad_gap};

use crate::form::label;
use fusion_rules::Rules;
use tree_shapes::Tree;

/// The least gap of a tree whose node isn't admissible: its label doesn't occur in the product of its children's
/// labels. None exactly where every node is admissible. The tree has at most 24 strands, and labels of the rules.
pub fn first_bad_gap(rules: &Rules, tree: &Tree) -> Option<u8>
    requires few { size (labelled tree.now) ≤ STRAND_LIMIT }
    requires labels { labels_below rules.now.count (labelled tree.now) ≡ true }
    ensures gap { result ≡ bad_gap (fuses rules.now) (labelled tree.now) 0 }
    ensures none { (result ≡ None) ↔ (is_admissible (fuses rules.now) (labelled tree.now) ≡ true) }
    ensures least { IfSome result (IsFirstBad (fuses rules.now) (labelled tree.now)) }
{
    bad_gap_from(rules, tree, 0)
}

/// The same of a part of a tree with so many strands before it.
fn bad_gap_from(rules: &Rules, tree: &Tree, before: u8) -> Option<u8>
    requires few { before + size (labelled tree.now) ≤ STRAND_LIMIT }
    requires labels { labels_below rules.now.count (labelled tree.now) ≡ true }
    ensures { result ≡ bad_gap (fuses rules.now) (labelled tree.now) before }
{
    match tree {
        Tree::Leaf(_) => None,
        Tree::Node(fork) => {
            let gap = before + count_strands(&fork.left) as u8;
            if let Some(bad) = bad_gap_from(rules, &fork.left, before) {
                return Some(bad);
            }
            if !rules.allows(label(&fork.left), label(&fork.right), fork.label) {
                return Some(gap);
            }
            bad_gap_from(rules, &fork.right, gap)
        }
    }
}

/// How many strands a tree has.
pub(crate) fn count_strands(tree: &Tree) -> usize
    requires { size (labelled tree.now) < 2 ^ 64 }
    ensures { result ≡ size (labelled tree.now) }
{
    match tree {
        Tree::Leaf(_) => 1,
        Tree::Node(fork) => count_strands(&fork.left) + count_strands(&fork.right),
    }
}
