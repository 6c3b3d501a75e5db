ghost use Rattle.std.specs.Prelude.{◌≡◌, Ok};
ghost use Rattle.line_text.specs.Text.{words_of};
ghost use Rattle.category_text.specs.Reading.{line_kind};
ghost use Rattle.category_text.specs.declared.kind.LineKind.TheVariants.{OfSymbol};

use crate::kind::Kind;
use line_text::Line;

/// A line whose first word names a kind of symbol.
#[derive(Clone, Copy)]
pub(crate) struct SymbolLine<'a> {
    pub line: Line<'a>,
    pub kind: Kind,
    ghost is: { line_kind (words_of line.text.now) ≡ Ok (OfSymbol kind) },
}
