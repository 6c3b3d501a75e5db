/// An exchange of neighbours.
#[derive(Clone, Copy, Debug, PartialEq, Eq)]
pub(crate) enum Exchange {
    /// The one of R.
    Positive,
    /// The one of S.
    Negative,
}
