//! What the mirror of a category is made of.

ghost use Rattle.std.specs.Prelude.{◌≡◌, ◌<◌, IfOk, IsTrue};
ghost use Rattle.ring_laws.specs.Stated.{Gives};
ghost use Rattle.cyclo_core.specs.Ratio.{ring_at};
ghost use Rattle.category_images.specs.Answers.{symbols_of_root};
ghost use Rattle.category_images.specs.Items.{mirrored_at};

use crate::pattern::Pattern;
use crate::place::Symbol;
use crate::value::value_of;
use cyclo_core::{Cyclo, Number};
use fusion_rules::UNIT;
use image_laws::laws::mirrors;
use ring_laws::{Overflow, StarRing, product3};
use symbol_table::Category;
use symbol_table::laws::all_labels;

/// The mirror of a category.
#[derive(Drop)]
pub(crate) struct Mirrored<'a> {
    pub(crate) from: &'a Category<Cyclo>,
}

/// The product of the two exchanges of a label with its dual to the unit and the twist of the dual.
fn inverse_twist(from: &Category<Cyclo>, a: u8) -> Result<Number, Overflow>
    requires { a < from.now.rules.count }
    ensures stated { Gives result (mirrored_at (symbols_of_root from.now) a) }
    ensures member { IfOk result (λ z. IsTrue ((ring_at from.now.ring).member z)) }
{
    let draft = from.draft();
    let dual = draft.rules().dual(a);
    product3(
        draft.ring(),
        &draft.r_at(a, dual, UNIT),
        &draft.r_at(dual, a, UNIT),
        &draft.twist(dual),
    )
}

impl<'a> Pattern for Mirrored<'a> {
    ghost use Rattle.image_laws.specs.Mirrors.{mirror_of};
    ghost use Rattle.category_images.specs.Answers.{symbols_of_root};
    ghost use Rattle.category_images.specs.Items.{mirror_item};

    ghost number = { λ p. p.from.now.ring };

    ghost wanted = { λ p. mirror_of (symbols_of_root p.from.now) };

    ghost stated = { λ p. mirror_item (symbols_of_root p.from.now) };

    ghost Valid = { λ _. Unit {0} };

    fn root(&self) -> u8 {
        self.from.ring().root()
    }

    fn version(&self) -> u8 {
        self.from.draft().version()
    }

    fn count(&self) -> u8 {
        all_labels(self.from);
        self.from.rules().count()
    }

    fn fuses(&self, a: u8, b: u8, c: u8) -> bool {
        self.from.rules().allows(a, b, c)
    }

    fn item(&self, symbol: Symbol, index: &[u8]) -> Result<Number, Overflow> {
        match symbol {
            Symbol::R => Ok(value_of(self.from, Symbol::S, index)),
            Symbol::S => Ok(value_of(self.from, Symbol::R, index)),
            Symbol::Twist => inverse_twist(self.from, index[0]),
            _ => Ok(value_of(self.from, symbol, index)),
        }
    }

    fn is_lawful(&self) {
        let _version = self.from.draft().version();
        mirrors(self.from);
    }
}
