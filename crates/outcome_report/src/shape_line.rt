//! The line of a shape.

ghost use Rattle.std.specs.Prelude.{◌≡◌, ◌≤◌, ◌∷◌, ◌++◌, [], codes, decimal};
ghost use Rattle.line_text.specs.Spelling.{spelled};
ghost use Rattle.line_text.specs.Writing.{Extends};
ghost use Rattle.outcome_report.specs.Parts.{IsTop, part_text};
ghost use Rattle.outcome_report.specs.TreeReport.{shape_text};

use itoa::Buffer;
use line_text::end_line;
use std::alloc::AllocError;
use tree_shapes::Shape;

/// Appends `shape` and the shape: a strand is its number, counted from 1, and a node is `(L R)`.
#[tactic(auto, using(line_text::proofs::WritingLemmas::still_in_front, line_text::proofs::WritingLemmas::in_front))]
pub(crate) fn extend_shape_line(shape: &Shape, out: &mut Vec<u8>) -> Result<(), AllocError>
    ensures { Extends result out.old.items out.new.items (spelled ((codes "shape" ∷ shape_text shape.now 0 ∷ []) ∷ [])) }
{
    out.extend_from_slice(b"shape ")?;
    extend_part(shape, Some(shape.top()), 1, out)?;
    end_line(out)?;
    Ok(())
}

/// Appends the part whose top is at a gap; without a gap it is the strand with this number.
#[tactic(auto, using(line_text::proofs::WritingLemmas::still_in_front, line_text::proofs::WritingLemmas::in_front))]
fn extend_part(
    shape: &Shape,
    top: Option<u8>,
    strand: u32,
    out: &mut Vec<u8>,
) -> Result<(), AllocError>
    requires { IsTop shape.now top }
    ensures { Extends result out.old.items out.new.items (part_text shape.now top strand) }
{
    let Some(k) = top else {
        return extend_decimal(strand, out);
    };
    out.push(b'(')?;
    extend_part(shape, shape.left(k), u32::from(k), out)?;
    out.push(b' ')?;
    extend_part(shape, shape.right(k), u32::from(k) + 1, out)?;
    out.push(b')')?;
    Ok(())
}

/// Appends a number in decimal digits.
fn extend_decimal(number: u32, out: &mut Vec<u8>) -> Result<(), AllocError>
    ensures { Extends result out.old.items out.new.items (decimal number) }
{
    let mut buffer = Buffer::new();
    out.extend_from_slice(buffer.format(number).as_bytes())?;
    Ok(())
}
