ghost use Rattle.std.specs.Prelude.{◌≡◌};
ghost use Rattle.shape_check.specs.Shapes.{law_of};

use symbol_table::Law;

/// An exchange of neighbours.
#[derive(Clone, Copy, Debug, PartialEq, Eq)]
pub(crate) enum Exchange {
    /// The one of R.
    Positive,
    /// The one of S.
    Negative,
}

/// A law whose two sides are products of F-symbols and exchanges.
#[derive(Clone, Copy, Debug, PartialEq, Eq)]
pub(crate) enum Shape {
    /// The pentagon.
    Pentagon,
    /// The hexagon of an exchange.
    Hexagon(Exchange),
}

impl Shape {
    /// The law of a shape.
    pub(crate) fn law(self) -> Law
        ensures { result ≡ law_of self }
    {
        match self {
            Shape::Pentagon => Law::Pentagon,
            Shape::Hexagon(Exchange::Positive) => Law::HexagonOne,
            Shape::Hexagon(Exchange::Negative) => Law::HexagonTwo,
        }
    }
}
