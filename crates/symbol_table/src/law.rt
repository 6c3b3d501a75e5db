ghost use Rattle.std.specs.Prelude.{◌≡◌, ◌<◌, ◌≤◌, ◌++◌, [], ◌∷◌, length};
ghost use Rattle.symbol_table.specs.Laws.{form_of, vertex_triples};

use arrayvec::ArrayVec;
use std::marker::Model;

/// A law that the symbols of a braided fusion category obey, in the order in which they are checked.
///
/// Equations and their indices: `specs/Laws.antt`, after Kitaev 2006, Appendix E.
#[derive(Clone, Copy, Debug, PartialEq, Eq)]
pub enum Law {
    /// F(a,b,c,d;e,f) is 1 where a, b or c is the unit.
    UnitF,
    /// R(a,b,c) is 1 where a or b is the unit.
    UnitR,
    /// w(a,b,c) is 1 where a or b is the unit.
    UnitW,
    /// w(a,b,c) is its own conjugate.
    RealW,
    /// v(a,b,c) is the inverse of w(a,b,c).
    InverseW,
    /// R is unitary in the inner products that the weights give.
    NormR,
    /// H has a value.
    DeriveH,
    /// S has a value.
    DeriveS,
    /// H is the right inverse of F.
    InverseF,
    /// H is the left inverse of F.
    InverseH,
    /// F(a,a*,a,a;1,1) isn't 0.
    Rigid,
    /// The pentagon.
    Pentagon,
    /// The hexagon of R.
    HexagonOne,
    /// The hexagon of S.
    HexagonTwo,
    /// The twist of the unit is 1.
    UnitTwist,
    /// Two exchanges of a and b to c are the twist of c over those of a and b.
    Twist,
    /// The loop value of the unit is 1.
    UnitLoop,
    /// The product of two loop values is the sum of those of the labels that their labels make.
    LoopSum,
    /// The square of a loop value is the inverse of F(a,a*,a,a;1,1) H(a,a*,a,a;1,1).
    LoopF,
}

/// Three places of an index, counted from 0, whose labels a, b, c have to fuse: c occurs in a times b.
#[derive(Clone, Copy, Debug, PartialEq, Eq)]
pub struct Triple {
    pub a: u8,
    pub b: u8,
    pub c: u8,
}

/// a b c, with N(a,b,c).
const VERTEX: [Triple; 1] = [Triple { a: 0, b: 1, c: 2 }];

/// a b c d e f, where F(a,b,c,d;e,f) is admissible.
const UNIT_F: [Triple; 4] = [
    Triple { a: 0, b: 1, c: 4 },
    Triple { a: 4, b: 2, c: 3 },
    Triple { a: 1, b: 2, c: 5 },
    Triple { a: 0, b: 5, c: 3 },
];

/// a b c d f e, where F(a,b,c,d;e,f) is admissible.
const DERIVE_H: [Triple; 4] = [
    Triple { a: 0, b: 1, c: 5 },
    Triple { a: 5, b: 2, c: 3 },
    Triple { a: 1, b: 2, c: 4 },
    Triple { a: 0, b: 4, c: 3 },
];

/// a b c d e g, with N(a,b,e), N(e,c,d), N(a,b,g), N(g,c,d).
const INVERSE_F: [Triple; 4] = [
    Triple { a: 0, b: 1, c: 4 },
    Triple { a: 4, b: 2, c: 3 },
    Triple { a: 0, b: 1, c: 5 },
    Triple { a: 5, b: 2, c: 3 },
];

/// a b c d f g, with N(b,c,f), N(a,f,d), N(b,c,g), N(a,g,d).
const INVERSE_H: [Triple; 4] = [
    Triple { a: 1, b: 2, c: 4 },
    Triple { a: 0, b: 4, c: 3 },
    Triple { a: 1, b: 2, c: 5 },
    Triple { a: 0, b: 5, c: 3 },
];

/// p l m r x y z f q, with N(p,l,x), N(x,m,y), N(y,r,z), N(m,r,f), N(l,f,q), N(p,q,z).
const PENTAGON: [Triple; 6] = [
    Triple { a: 0, b: 1, c: 4 },
    Triple { a: 4, b: 2, c: 5 },
    Triple { a: 5, b: 3, c: 6 },
    Triple { a: 2, b: 3, c: 7 },
    Triple { a: 1, b: 7, c: 8 },
    Triple { a: 0, b: 8, c: 6 },
];

/// a b c d e f, with N(a,b,e), N(e,c,d), N(c,a,f), N(b,f,d).
const HEXAGON: [Triple; 4] = [
    Triple { a: 0, b: 1, c: 4 },
    Triple { a: 4, b: 2, c: 3 },
    Triple { a: 2, b: 0, c: 5 },
    Triple { a: 1, b: 5, c: 3 },
];

/// A row of the table of laws.
#[derive(Clone, Copy, Debug)]
struct Form {
    name: &'static str,
    places: u8,
    triples: &'static [Triple],
}

/// The form of a law over the labels a b c of a vertex.
fn vertex(name: &'static str) -> Form
    ensures name { result.name.now ≡ name.now }
    ensures places { result.places ≡ 3 }
    ensures triples { result.triples.now ≡ vertex_triples }
{
    Form {
        name,
        places: 3,
        triples: &VERTEX,
    }
}

/// The form of a law over six labels.
fn six(name: &'static str, triples: &'static [Triple]) -> Form
    ensures name { result.name.now ≡ name.now }
    ensures places { result.places ≡ 6 }
    ensures triples { result.triples.now ≡ triples.now }
{
    Form {
        name,
        places: 6,
        triples,
    }
}

/// The form of a law over so many labels of which none have to fuse.
fn free(name: &'static str, places: u8) -> Form
    ensures name { result.name.now ≡ name.now }
    ensures places { result.places ≡ places }
    ensures triples { result.triples.now ≡ [] }
{
    Form {
        name,
        places,
        triples: &[],
    }
}

impl Law {
    /// The table of laws: the name, the number of labels of an index, and where three of them have to fuse.
    fn form(self) -> Form
        ensures name { result.name.now ≡ (form_of self).name }
        ensures places { result.places ≡ (form_of self).places }
        ensures few { result.places ≤ 9 }
        ensures triples { result.triples.now ≡ (form_of self).triples }
    {
        match self {
            Law::UnitF => six("unit-f", &UNIT_F),
            Law::UnitR => vertex("unit-r"),
            Law::UnitW => vertex("unit-w"),
            Law::RealW => vertex("real-w"),
            Law::InverseW => vertex("inverse-w"),
            Law::NormR => vertex("norm-r"),
            Law::DeriveH => six("derive-h", &DERIVE_H),
            Law::DeriveS => vertex("derive-s"),
            Law::InverseF => six("inverse-f", &INVERSE_F),
            Law::InverseH => six("inverse-h", &INVERSE_H),
            Law::Rigid => free("rigid", 1),
            Law::Pentagon => Form {
                name: "pentagon",
                places: 9,
                triples: &PENTAGON,
            },
            Law::HexagonOne => six("hexagon-1", &HEXAGON),
            Law::HexagonTwo => six("hexagon-2", &HEXAGON),
            Law::UnitTwist => free("unit-twist", 1),
            Law::Twist => vertex("twist"),
            Law::UnitLoop => free("unit-loop", 1),
            Law::LoopSum => free("loop", 2),
            Law::LoopF => free("loop-f", 1),
        }
    }

    /// The name of this law, as it is written.
    pub fn name(self) -> &'static str
        ensures { result.now ≡ (form_of self).name }
    {
        self.form().name
    }

    /// How many labels an index of this law has: nine at most.
    pub fn places(self) -> u8
        ensures places { result ≡ (form_of self).places }
        ensures few { result ≤ 9 }
    {
        self.form().places
    }

    /// At which places of an index three labels have to fuse.
    pub fn triples(self) -> &'static [Triple]
        ensures { result.now ≡ (form_of self).triples }
    {
        self.form().triples
    }
}

/// Why a law isn't met at an index.
#[derive(Clone, Copy, Debug, PartialEq, Eq)]
pub enum Kind {
    /// All items of the evaluation fit, and the equation is false.
    Fails,
    /// A product, a sum or a conjugate of the evaluation doesn't fit.
    Overflow,
}

/// The labels of an index, nine at most.
#[derive(Debug, Drop)]
pub struct Labels {
    labels: ArrayVec<u8, 9>,
}

impl Model for Labels {
    ghost use Rattle.std.specs.Prelude.{ℕ, List, ◌≤◌, length};

    ghost Value = { List ℕ };

    ghost view = { λ l. l.labels.items };

    ghost invariant = { λ l. length l.labels.items ≤ 9 };
}

impl Labels {
    /// No labels.
    pub fn new() -> Labels
        ensures { result ≡ [] }
    {
        Labels {
            labels: ArrayVec::new(),
        }
    }

    /// The labels in their order.
    pub fn as_slice(&self) -> &[u8]
        ensures value { result.now ≡ self.now }
        ensures few { length self.now ≤ 9 }
    {
        self.labels.as_slice()
    }

    /// These labels, fewer than nine, and one more behind them.
    pub fn with(&self, label: u8) -> Labels
        requires { length self.now < 9 }
        ensures { result ≡ self.now ++ label ∷ [] }
    {
        let mut labels = ArrayVec::new();
        for x in self.labels.as_slice() {
            labels.push(*x);
        }
        labels.push(label);
        Labels { labels }
    }
}

/// A law that isn't met at an index, and why.
#[derive(Debug, Drop)]
pub struct Event {
    pub kind: Kind,
    pub law: Law,
    /// Label numbers, in the order of the law's index.
    pub index: Labels,
}
