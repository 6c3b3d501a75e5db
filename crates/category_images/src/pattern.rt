//! What a new category is made of.

use crate::place::Symbol;
use cyclo_core::Number;
use ring_laws::Overflow;

/// A category to be made: its rules, and the stated evaluation of each symbol.
pub(crate) trait Pattern {
    ghost use Rattle.std.specs.Prelude.{◌≡◌, ◌<◌, ◌⊎◌, ℕ, List, Option, All, IfOk, IsTrue, length, true};
    ghost use Rattle.ring_laws.specs.Stated.{Gives};
    ghost use Rattle.poly_core.specs.Rho.{is_accepted};
    ghost use Rattle.cyclo_core.specs.Ratio.{Ratio, held, ring_at};
    ghost use Rattle.symbol_table.specs.Index.{AreThreeLabels};
    ghost use Rattle.symbol_table.specs.Symbols.{Symbols};
    ghost use Rattle.symbol_table.specs.Laws.{fuse_all};
    ghost use Rattle.image_laws.specs.Category.{AreOfCategory};
    ghost use Rattle.category_images.specs.declared.place.Symbol.{Symbol};
    ghost use Rattle.category_images.specs.Places.{places, triples, value_at};
    ghost use Rattle.category_images.specs.Making.{Belongs};
    ghost use Rattle.category_images.specs.Patterns.{HasMarks, HasRules};

    // the order of the root of unity
    ghost number: { Self → ℕ };

    ghost wanted: { Self → Symbols Ratio };

    ghost stated: { Self → Symbol → List ℕ → Option Ratio };
    // such as: z^k has the order of z
    ghost Valid: { Self → Type 0 };

    /// The order of the root of unity.
    fn root(&self) -> u8
        requires valid { Valid self.now }
        ensures value { result ≡ number self.now }
        ensures accepted { IsTrue (is_accepted (number self.now)) };

    /// The version, 1 or 2.
    fn version(&self) -> u8
        requires valid { Valid self.now }
        ensures value { result ≡ (wanted self.now).version }
        ensures known { (result ≡ 1) ⊎ (result ≡ 2) };

    /// How many labels there are, 1 to 12.
    fn count(&self) -> u8
        requires valid { Valid self.now }
        ensures value { result ≡ (wanted self.now).count }
        ensures rules { HasRules (wanted self.now) };

    /// Whether c occurs in a times b, for labels below the count.
    fn fuses(&self, a: u8, b: u8, c: u8) -> bool
        requires valid { Valid self.now }
        requires labels { AreThreeLabels (wanted self.now).count a b c }
        ensures { result ≡ (wanted self.now).fuse a b c };

    /// The value of a symbol at an admissible index.
    ///
    /// Answers [`Overflow`] exactly where its stated evaluation has none.
    fn item(&self, symbol: Symbol, index: &[u8]) -> Result<Number, Overflow>
        requires valid { Valid self.now }
        requires belongs { Belongs (wanted self.now).version symbol }
        requires long { length index.now ≡ places symbol }
        requires labels { All (λ t. t < (wanted self.now).count) index.now }
        requires admissible { fuse_all (wanted self.now).fuse index.now (triples symbol) ≡ true }
        ensures stated { Gives result (stated self.now symbol index.now) }
        ensures value { IfOk result (λ z. z ≡ value_at (wanted self.now) symbol index.now) }
        ensures member { IfOk result (λ z. IsTrue ((ring_at (number self.now)).member z)) };

    /// The wanted symbols are those of a category over the numbers of the root.
    fn is_lawful(&self)
        requires valid { Valid self.now }
        ensures category { AreOfCategory (wanted self.now) }
        ensures marks { HasMarks (wanted self.now) }
        ensures ring { (wanted self.now).ring ≡ ring_at (number self.now) }
        ensures held { (wanted self.now).held ≡ held };
}
