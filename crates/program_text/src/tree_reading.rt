//! Trees of pieces.

ghost use Rattle.std.specs.Prelude.{◌≡◌, ◌<◌, ◌^◌, IfOk, option_map};
ghost use Rattle.line_text.specs.Text.{words_of};
ghost use Rattle.tree_shapes.specs.Labelled.{size};
ghost use Rattle.tree_shapes.specs.Views.{labelled};
ghost use Rattle.program_text.specs.Answers.{Says};
ghost use Rattle.program_text.specs.Grammar.{tree_in};
ghost use Rattle.program_text.specs.Trees.{closed, tree_at, tree_of};

use crate::fault::{ProgramCause, Stop, unless};
use crate::piece::Piece;
use crate::pieces::read_pieces;
use fusion_rules::Names;
use line_text::Line;
use std::alloc::{AllocError, Global};
use tree_shapes::{Tree, join, strand};

/// The tree behind the first word of a line.
pub(crate) fn read_tree(alloc: Global, names: &Names, line: &Line) -> Result<Tree, Stop>
    ensures tree { Says labelled result (tree_in names.now (words_of line.now.text.now)) }
    ensures fits { IfOk result (λ tree. size (labelled tree) < 2 ^ 64) }
{
    let pieces = read_pieces(alloc, names, line)?;
    whole_tree(alloc, &pieces)
}

/// The tree that these pieces are.
fn whole_tree(alloc: Global, pieces: &[Piece]) -> Result<Tree, Stop>
    ensures { Says labelled result (tree_of pieces.now) }
{
    let Some((tree, rest)) = front_tree(alloc, pieces, pieces.len())? else {
        return Err(Stop::Cause(ProgramCause::Start));
    };
    unless(rest.is_empty(), ProgramCause::Start)?;
    Ok(tree)
}

/// The tree in front, and the pieces behind it; none where no tree of at most this depth stands in front.
fn front_tree(
    alloc: Global,
    pieces: &[Piece],
    depth: usize,
) -> Result<Option<(Tree, &[Piece])>, AllocError>
    ensures { IfOk result (λ read. option_map (λ front. (labelled front.0, front.1.now)) read ≡ tree_at depth pieces.now) }
{
    if depth == 0 {
        return Ok(None);
    }
    let Some((first, rest)) = pieces.split_first() else {
        return Ok(None);
    };
    match *first {
        Piece::Label(label) => Ok(Some((strand(label), rest))),
        Piece::Open => {
            let Some((left, rest)) = front_tree(alloc, rest, depth - 1)? else {
                return Ok(None);
            };
            let Some((right, rest)) = front_tree(alloc, rest, depth - 1)? else {
                return Ok(None);
            };
            close(alloc, left, right, rest)
        }
        Piece::Close | Piece::Colon => Ok(None),
    }
}

/// The node over both children, where the pieces go on with `)`, `:` and its label.
fn close(
    alloc: Global,
    left: Tree,
    right: Tree,
    pieces: &[Piece],
) -> Result<Option<(Tree, &[Piece])>, AllocError>
    ensures { IfOk result (λ read. option_map (λ front. (labelled front.0, front.1.now)) read ≡ closed (labelled left) (labelled right) pieces.now) }
{
    match pieces {
        [Piece::Close, Piece::Colon, Piece::Label(label), rest @ ..] => {
            Ok(Some((join(alloc, left, right, *label)?, rest)))
        }
        _ => Ok(None),
    }
}
