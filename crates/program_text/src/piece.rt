/// A piece of a tree's text. A label that isn't named has the number of all names, which is no label.
#[derive(Clone, Copy, Debug, PartialEq, Eq, Drop)]
pub(crate) enum Piece {
    Open,
    Close,
    Colon,
    Label(u8),
}
