use symbol_table::{FIndex, VIndex};

/// The kinds of symbols, and of marks of labels.
#[derive(Clone, Copy, Debug, PartialEq, Eq)]
pub(crate) enum Kind {
    F,
    R,
    W,
    V,
    Twist,
    Loop,
}

/// What a line behind the labels gives, by its first word.
#[derive(Clone, Copy, Debug, PartialEq, Eq)]
pub(crate) enum LineKind {
    Fusion,
    OfSymbol(Kind),
}

/// A symbol of one kind by its labels, or a mark by its label.
#[derive(Clone, Copy, Debug, PartialEq, Eq)]
pub(crate) enum Symbol {
    OfF(FIndex),
    OfR(VIndex),
    OfW(VIndex),
    OfV(VIndex),
    OfTwist(u8),
    OfLoop(u8),
}

/// The kinds of symbols of a vertex.
#[derive(Clone, Copy, Debug, PartialEq, Eq)]
pub(crate) enum VertexKind {
    OnR,
    OnW,
    OnV,
}

/// The marks of a label: its twist, and its loop value.
#[derive(Clone, Copy, Debug, PartialEq, Eq)]
pub(crate) enum MarkKind {
    OnTwist,
    OnLoop,
}

/// What the lines of three labels say: triples, symbols of a vertex, or F with these labels in front.
#[derive(Clone, Copy, Debug, PartialEq, Eq)]
pub(crate) enum Group {
    Fusions,
    Vertices(VertexKind),
    FBehind(VIndex),
}
