/// Why there is no number of given numerators over a given denominator.
#[derive(Clone, Copy, Debug, PartialEq, Eq)]
pub enum NumberFault {
    /// A magnitude is above 2^127 - 1.
    TooBig,
    /// The denominator is 0, and no magnitude is above 2^127 - 1.
    ZeroDenominator,
}
