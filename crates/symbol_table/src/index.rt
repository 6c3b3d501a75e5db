ghost use Rattle.std.specs.Prelude.{◌≡◌};
ghost use Rattle.fusion_rules.specs.Fusion.{fuses};
ghost use Rattle.symbol_table.specs.Index.{AreSixLabels};
ghost use Rattle.symbol_table.specs.Symbols.{f_admissible};

use fusion_rules::Rules;

/// The labels of `F(a,b,c,d;e,f)`: admissible where e occurs in a times b, d in e times c, f in b times c,
/// and d in a times f.
#[derive(Clone, Copy, Debug, PartialEq, Eq, PartialOrd, Ord)]
pub struct FIndex {
    pub a: u8,
    pub b: u8,
    pub c: u8,
    pub d: u8,
    pub e: u8,
    pub f: u8,
}

impl FIndex {
    /// Whether the four vertices of the index are triples of the rules. Asks for labels below their count.
    pub fn is_admissible(&self, rules: &Rules) -> bool
        requires { AreSixLabels rules.now.count self.now.a self.now.b self.now.c self.now.d self.now.e
            self.now.f }
        ensures { result ≡ f_admissible (fuses rules.now) self.now.a self.now.b self.now.c self.now.d
            self.now.e self.now.f }
    {
        rules.allows(self.a, self.b, self.e)
            && rules.allows(self.e, self.c, self.d)
            && rules.allows(self.b, self.c, self.f)
            && rules.allows(self.a, self.f, self.d)
    }
}

/// The labels of a vertex: admissible where c occurs in a times b.
#[derive(Clone, Copy, Debug, PartialEq, Eq, PartialOrd, Ord)]
pub struct VIndex {
    pub a: u8,
    pub b: u8,
    pub c: u8,
}
