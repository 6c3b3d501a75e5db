//! What the product of two categories is made of.

ghost use Rattle.std.specs.Prelude.{◌≡◌, ◌<◌, ◌≤◌, ◌/◌, ◌%◌, length, map};

use crate::pattern::Pattern;
use crate::place::Symbol;
use crate::value::value_of;
use cyclo_core::{Cyclo, Number};
use image_laws::laws::products;
use ring_laws::{Overflow, StarRing};
use symbol_table::laws::all_labels;
use symbol_table::{Category, Labels};

/// The product of two categories.
#[derive(Drop)]
pub(crate) struct Pairs<'a> {
    pub(crate) one: &'a Category<Cyclo>,
    pub(crate) two: &'a Category<Cyclo>,
}

/// The first labels of pairs, of which the second has so many.
fn firsts(k: u8, index: &[u8]) -> Labels
    requires some { 0 < k }
    requires few { length index.now ≤ 9 }
    ensures { result ≡ map (λ a. a / k) index.now }
{
    let mut labels = Labels::new();
    for a in index {
        labels = labels.with(*a / k);
    }
    labels
}

/// The second labels of pairs, of which there are so many.
fn seconds(k: u8, index: &[u8]) -> Labels
    requires some { 0 < k }
    requires few { length index.now ≤ 9 }
    ensures { result ≡ map (λ a. a % k) index.now }
{
    let mut labels = Labels::new();
    for a in index {
        labels = labels.with(*a % k);
    }
    labels
}

impl<'a> Pattern for Pairs<'a> {
    ghost use Rattle.category_images.specs.Answers.{HaveProduct, symbols_of_root, wanted_product};
    ghost use Rattle.category_images.specs.Items.{product_item};

    ghost number = { λ p. p.one.now.ring };

    ghost wanted = { λ p. wanted_product p.one.now p.two.now };

    ghost stated = { λ p. product_item (symbols_of_root p.one.now) (symbols_of_root p.two.now) };

    ghost Valid = { λ p. HaveProduct p.one.now p.two.now };

    fn root(&self) -> u8 {
        self.one.ring().root()
    }

    fn version(&self) -> u8 {
        self.one.draft().version()
    }

    fn count(&self) -> u8 {
        all_labels(self.one);
        all_labels(self.two);
        self.one.rules().count() * self.two.rules().count()
    }

    fn fuses(&self, a: u8, b: u8, c: u8) -> bool {
        let k = self.two.rules().count();
        self.one.rules().allows(a / k, b / k, c / k) && self.two.rules().allows(a % k, b % k, c % k)
    }

    fn item(&self, symbol: Symbol, index: &[u8]) -> Result<Number, Overflow> {
        let k = self.two.rules().count();
        let first = value_of(self.one, symbol, firsts(k, index).as_slice());
        let second = value_of(self.two, symbol, seconds(k, index).as_slice());
        self.one.ring().mul(&first, &second)
    }

    fn is_lawful(&self) {
        products(self.one, self.two);
    }
}
