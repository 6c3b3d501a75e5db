//! The start line and signs.

ghost use Rattle.std.specs.Prelude.{◌≡◌, ◌∷◌, [], codes};
ghost use Rattle.line_text.specs.Spelling.{spaced, spelled};
ghost use Rattle.line_text.specs.Writing.{Extends};
ghost use Rattle.tree_shapes.specs.Views.{labelled};
ghost use Rattle.program_text.specs.Canonical.{sign_word, tree_words};

use crate::plan::Sign;
use fusion_rules::Names;
use line_text::end_line;
use std::alloc::AllocError;
use tree_shapes::Tree;

/// Appends the line `start` with a tree.
#[tactic(auto, using(line_text::proofs::WritingLemmas::still_in_front))]
pub(crate) fn extend_start(names: &Names, start: &Tree, out: &mut Vec<u8>) -> Result<(), AllocError>
    ensures { Extends result out.old.items out.new.items (spelled ((codes "start" ∷ tree_words names.now (labelled start.now)) ∷ [])) }
{
    out.extend_from_slice(b"start ")?;
    extend_tree(names, start, out)?;
    end_line(out)?;
    Ok(())
}

/// Appends a tree, a node as `(L R):q` with one space.
#[tactic(auto, using(line_text::proofs::WritingLemmas::still_in_front))]
fn extend_tree(names: &Names, tree: &Tree, out: &mut Vec<u8>) -> Result<(), AllocError>
    ensures { Extends result out.old.items out.new.items (spaced (tree_words names.now (labelled tree.now))) }
{
    match tree {
        Tree::Leaf(label) => out.extend_from_slice(names.name_or_empty(*label).as_bytes())?,
        Tree::Node(fork) => {
            out.push(b'(')?;
            extend_tree(names, &fork.left, out)?;
            out.push(b' ')?;
            extend_tree(names, &fork.right, out)?;
            out.extend_from_slice(b"):")?;
            out.extend_from_slice(names.name_or_empty(fork.label).as_bytes())?;
        }
    }
    Ok(())
}

pub(crate) fn sign_word(sign: Sign) -> &'static str
    ensures { result.now ≡ sign_word sign }
{
    match sign {
        Sign::Plus => "+",
        Sign::Minus => "-",
    }
}
