use cyclo_core::Number;

/// The kinds of marks.
#[derive(Clone, Copy, Debug, PartialEq, Eq)]
pub(crate) enum MarkKind {
    Twist,
    Loop,
}

/// A mark of a label, as its line says it.
#[derive(Drop)]
pub(crate) struct Mark {
    pub kind: MarkKind,
    pub label: u8,
    pub value: Number,
}
