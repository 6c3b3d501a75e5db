use tree_shapes::Tree;

/// The sign of a braid: positive exchanges use the R-symbol, negative ones its inverse.
#[derive(Clone, Copy, PartialEq, Eq, Debug, Drop)]
pub enum Sign {
    Plus,
    Minus,
}

/// A command of a site, at a gap counted from 1.
#[derive(Clone, Copy, PartialEq, Eq, Debug, Drop)]
pub enum Command {
    Braid {
        gap: u8,
        sign: Sign,
    },
    Raise {
        gap: u8,
    },
    Measure {
        gap: u8,
    },
    /// A braid on the words that have the label at the place: the number of a measurement in text order, from 0.
    BraidWhen {
        gap: u8,
        sign: Sign,
        place: u32,
        label: u8,
    },
}

/// A site: the strands `first` to `last`, counted from 1, and its commands in their order.
#[derive(Drop)]
pub struct Site {
    pub name: String,
    pub first: u8,
    pub last: u8,
    pub commands: Vec<Command>,
}

/// The name of an outcome: that of the measurement with this number in text order, counted from 0.
#[derive(Drop)]
pub struct Outcome {
    pub name: String,
    pub place: u32,
}

/// A program: the version of its text, the labelled start tree, the sites in the order of the text, and the named
/// outcomes in the order of their measurements. In version 1 no outcome is named and no braid has a test.
#[derive(Drop)]
pub struct Plan {
    pub version: u8,
    pub start: Tree,
    pub sites: Vec<Site>,
    pub outcomes: Vec<Outcome>,
}
