ghost use Rattle.std.specs.Prelude.{◌≡◌, IsTrue};
ghost use Rattle.fusion_rules.specs.Fusion.{fuses};
ghost use Rattle.symbol_table.specs.Index.{AreSixLabels, AreThreeLabels};
ghost use Rattle.symbol_table.specs.Draft.{IsMember, f_index_admissible, given};
ghost use Rattle.symbol_table.specs.Derived.{HoldsSymbols};
ghost use Rattle.symbol_table.specs.Laws.{IsLawful};
ghost use Rattle.symbol_table.specs.Category.{symbols};

use crate::derived::Derived;
use crate::draft::Draft;
use crate::index::{FIndex, VIndex};
use fusion_rules::Rules;
use ring_laws::StarRing;
use std::marker::Model;

/// A braided fusion category without multiplicities: rules that pass and symbols that obey every law of its version,
/// with H and S at every admissible index.
///
/// It is unitary in the inner products that the weights give: they make H the adjoint of F and S that of R. Weights
/// need not be positive.
///
/// Its type keeps that the draft is lawful; whoever has a category may rely on it.
#[derive(Drop)]
pub struct Category<R: StarRing> {
    draft: Draft<R>,
    derived: Derived<R>,
}

impl<R: StarRing> Model for Category<R> {
    ghost use Rattle.symbol_table.specs.Draft.{DraftValue};
    ghost use Rattle.symbol_table.specs.Category.{IsCategory};

    ghost Value = { DraftValue R R.Elem };

    ghost view = { λ c. c.draft };

    ghost invariant = { λ c. IsCategory (R.ring c.draft.ring) R.held c.draft c.derived };
}

impl<R: StarRing> Category<R> {
    /// The category of a lawful draft and its H and S at every admissible index. Takes no memory.
    pub fn seal(draft: Draft<R>, derived: Derived<R>) -> Category<R>
        requires lawful { IsLawful (symbols R.StarRing draft) }
        requires holds { HoldsSymbols (R.ring draft.ring) (given draft) derived }
        ensures { result ≡ draft }
    {
        Category { draft, derived }
    }

    /// The draft, which is lawful.
    pub fn draft(&self) -> &Draft<R>
        ensures draft { result.now ≡ self.now }
        ensures lawful { IsLawful (symbols R.StarRing self.now) }
    {
        &self.draft
    }

    /// The ring of the values.
    pub fn ring(&self) -> &R
        ensures { result.now ≡ self.now.ring }
    {
        self.draft.ring()
    }

    /// The fusion rules.
    pub fn rules(&self) -> &Rules
        ensures { result.now ≡ self.now.rules }
    {
        self.draft.rules()
    }

    /// F at an admissible index.
    pub fn f(&self, at: &FIndex) -> R::Elem
        requires { IsTrue (f_index_admissible (given self.now) at.now) }
        ensures value { result ≡ (symbols R.StarRing self.now).f at.now.a at.now.b at.now.c
            at.now.d at.now.e at.now.f }
        ensures member { IsMember R.StarRing self.now result }
        ensures held { IsTrue (R.held.can_hold result) }
    {
        self.draft.f(at)
    }

    /// H(a,b,c,d;f,e) at the admissible index of F(a,b,c,d;e,f).
    pub fn h(&self, at: &FIndex) -> R::Elem
        requires { IsTrue (f_index_admissible (given self.now) at.now) }
        ensures value { result ≡ (symbols R.StarRing self.now).h at.now.a at.now.b at.now.c
            at.now.d at.now.f at.now.e }
        ensures member { IsMember R.StarRing self.now result }
        ensures held { IsTrue (R.held.can_hold result) }
    {
        self.derived.h_in(&self.draft, at)
    }

    /// R at an admissible index.
    pub fn r(&self, at: &VIndex) -> R::Elem
        requires { IsTrue (fuses self.now.rules at.now.a at.now.b at.now.c) }
        ensures value { result ≡ (symbols R.StarRing self.now).r
            at.now.a at.now.b at.now.c }
        ensures member { IsMember R.StarRing self.now result }
        ensures held { IsTrue (R.held.can_hold result) }
    {
        self.draft.r(at)
    }

    /// S at an admissible index.
    pub fn s(&self, at: &VIndex) -> R::Elem
        requires { IsTrue (fuses self.now.rules at.now.a at.now.b at.now.c) }
        ensures value { result ≡ (symbols R.StarRing self.now).s at.now.a at.now.b at.now.c }
        ensures member { IsMember R.StarRing self.now result }
        ensures held { IsTrue (R.held.can_hold result) }
    {
        self.derived.s_in(&self.draft, at)
    }

    /// The weight w at an admissible index.
    pub fn w(&self, at: &VIndex) -> R::Elem
        requires { IsTrue (fuses self.now.rules at.now.a at.now.b at.now.c) }
        ensures value { result ≡ (symbols R.StarRing self.now).w
            at.now.a at.now.b at.now.c }
        ensures member { IsMember R.StarRing self.now result }
        ensures held { IsTrue (R.held.can_hold result) }
    {
        self.draft.w(at)
    }
}
