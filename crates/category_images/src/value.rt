//! The symbols of a category by their places.

ghost use Rattle.std.specs.Prelude.{◌≡◌, ◌<◌, All, IsTrue, length, true};
ghost use Rattle.cyclo_core.specs.Ratio.{ring_at};
ghost use Rattle.fusion_rules.specs.Fusion.{fuses};
ghost use Rattle.symbol_table.specs.Laws.{fuse_all};
ghost use Rattle.category_images.specs.Answers.{symbols_of_root};
ghost use Rattle.category_images.specs.Places.{places, triples, value_at};

use crate::making::{six, three, turned};
use crate::place::Symbol;
use cyclo_core::{Cyclo, Number};
use symbol_table::Category;

/// The value of a symbol of a category at an admissible index.
pub(crate) fn value_of(category: &Category<Cyclo>, symbol: Symbol, index: &[u8]) -> Number
    requires long { length index.now ≡ places symbol }
    requires labels { All (λ t. t < category.now.rules.count) index.now }
    requires admissible { fuse_all (fuses category.now.rules) index.now (triples symbol) ≡ true }
    ensures value { result ≡ value_at (symbols_of_root category.now) symbol index.now }
    ensures member { IsTrue ((ring_at category.now.ring).member result) }
{
    match symbol {
        Symbol::F => category.f(&six(index)),
        Symbol::R => category.r(&three(index)),
        Symbol::W => category.w(&three(index)),
        Symbol::V => category.draft().v(&three(index)),
        Symbol::H => category.h(&turned(index)),
        Symbol::S => category.s(&three(index)),
        Symbol::Twist => category.draft().twist(index[0]),
        Symbol::Loop => category.draft().loop_value(index[0]),
    }
}
