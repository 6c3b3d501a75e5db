use symbol_table::{Labels, Law};

/// A kind of symbol of a category, in the order in which those of a new category are made.
#[derive(Clone, Copy, Debug, PartialEq, Eq)]
pub enum Symbol {
    /// F(a,b,c,d;e,f), at the labels a, b, c, d, e, f.
    F,
    /// R(a,b,c), at the labels a, b, c.
    R,
    /// The weight w(a,b,c).
    W,
    /// The inverse weight v(a,b,c).
    V,
    /// H(a,b,c,d;f,e), at the labels a, b, c, d, f, e.
    H,
    /// The negative exchange S(a,b,c).
    S,
    /// The twist of a label.
    Twist,
    /// The loop value of a label.
    Loop,
}

impl Symbol {
    ghost use Rattle.std.specs.Prelude.{◌≡◌, ◌≤◌};
    ghost use Rattle.symbol_table.specs.Laws.{form_of};
    ghost use Rattle.category_images.specs.Places.{places, triples};

    /// A law with the indices of this symbol.
    pub(crate) fn law(self) -> Law
        ensures places { (form_of result).places ≡ places self }
        ensures triples { (form_of result).triples ≡ triples self }
    {
        match self {
            Symbol::F => Law::UnitF,
            Symbol::R | Symbol::W | Symbol::V | Symbol::S => Law::UnitR,
            Symbol::H => Law::DeriveH,
            Symbol::Twist | Symbol::Loop => Law::UnitTwist,
        }
    }
}

/// A symbol at an index: 6 labels of F and H, 3 of R, w, v and S, 1 of a twist or a loop value.
#[derive(Debug, Drop)]
pub struct Place {
    pub symbol: Symbol,
    pub index: Labels,
}
