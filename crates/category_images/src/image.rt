//! What the image of a category is made of.

use crate::pattern::Pattern;
use crate::place::Symbol;
use crate::value::value_of;
use cyclo_core::{Cyclo, Number};
use image_laws::laws::images;
use ring_laws::{Overflow, StarRing};
use symbol_table::Category;
use symbol_table::laws::all_labels;

/// The image of a category where z^k is put for z.
#[derive(Drop)]
pub(crate) struct Image<'a> {
    pub(crate) from: &'a Category<Cyclo>,
    pub(crate) k: u8,
}

impl<'a> Pattern for Image<'a> {
    ghost use Rattle.std.specs.Prelude.{IsTrue};
    ghost use Rattle.cyclo_core.specs.Image.{is_exponent, image_of as number_image};
    ghost use Rattle.image_laws.specs.Images.{image_of};
    ghost use Rattle.category_images.specs.Answers.{symbols_of_root};
    ghost use Rattle.category_images.specs.Items.{image_item};

    ghost number = { λ p. p.from.now.ring };

    ghost wanted = { λ p. image_of (number_image p.from.now.ring p.k) (symbols_of_root p.from.now) };

    ghost stated = { λ p. image_item p.from.now.ring p.k (symbols_of_root p.from.now) };

    ghost Valid = { λ p. IsTrue (is_exponent p.from.now.ring p.k) };

    fn root(&self) -> u8 {
        self.from.ring().root()
    }

    fn version(&self) -> u8 {
        self.from.draft().version()
    }

    fn count(&self) -> u8 {
        all_labels(self.from);
        self.from.rules().count()
    }

    fn fuses(&self, a: u8, b: u8, c: u8) -> bool {
        self.from.rules().allows(a, b, c)
    }

    fn item(&self, symbol: Symbol, index: &[u8]) -> Result<Number, Overflow> {
        let value = value_of(self.from, symbol, index);
        self.from.ring().image(self.k, &value)
    }

    fn is_lawful(&self) {
        let _version = self.from.draft().version();
        cyclo_core::laws::images(self.from.ring().root());
        images(self.from);
    }
}
