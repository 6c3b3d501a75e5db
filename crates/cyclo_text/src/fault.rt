/// Why a word is no number of a ring. The refusals are tried in this order.
#[derive(Clone, Copy, Debug, PartialEq, Eq)]
pub enum NumberWord {
    /// The word isn't of the form of a number.
    Spelling,
    /// There are more than phi(N) parts.
    TooManyParts,
    /// A magnitude is above 2^127 - 1.
    TooBig,
    /// The denominator is 0.
    ZeroDenominator,
}
