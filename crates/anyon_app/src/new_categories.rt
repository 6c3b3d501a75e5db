// The commands `galois CAT K`, `mirror CAT` and `product CAT CAT`.
ghost use Rattle.std.specs.Prelude.{◌≡◌, ◌<◌, ◌≤◌, Ok, codes, length};
ghost use Rattle.line_text.specs.Plain.{plain_number_of};
ghost use Rattle.category_text.specs.Canonical.{canonical};
ghost use Rattle.category_text.specs.Named.{named_draft};
ghost use Rattle.category_images.specs.Answers.{symbols_of_root};
ghost use Rattle.category_images.specs.Names.{pair_names};
ghost use Rattle.anyon_app.specs.NewCategories.{galois_work, image_by, image_text, mirror_text, mirror_work, named_symbols, product_text, product_work};
ghost use Rattle.anyon_app.specs.Refusals.{place_line};
ghost use Rattle.anyon_app.specs.Stages.{Gives, StopsWith, Worked};

use crate::judge::Admitted;
use crate::programs::load_admitted;
use crate::refusals::{
    exponent_line, place_line, product_labels_line, product_roots_line, product_version_line,
};
use crate::stop::Stop;
use crate::texts::Kind;
use category_images::{ImageFault, Place, ProductFault, product_names};
use category_text::write_parts;
use cyclo_core::Cyclo;
use fusion_rules::Names;
use io_ports::Shelf;
use line_text::plain_number;
use std::alloc::Global;
use symbol_table::Category;

/// Reads a category and judges it, and reports the canonical text of its Galois image where z^k is put for z, with k the
/// number of a word.
pub fn galois<S: Shelf>(
    alloc: Global,
    shelf: &mut S,
    category: &str,
    word: &str,
) -> Result<Vec<u8>, Stop>
    ensures { Worked S.files S.faults shelf.old shelf.new (galois_work category.now word.now) result }
{
    let admitted = load_admitted(alloc, shelf, Kind::Category, category)?;
    image_by(alloc, &admitted, word)
}

/// Reads a category and judges it, and reports the canonical text of its mirror.
pub fn mirror<S: Shelf>(alloc: Global, shelf: &mut S, category: &str) -> Result<Vec<u8>, Stop>
    ensures { Worked S.files S.faults shelf.old shelf.new (mirror_work category.now) result }
{
    let admitted = load_admitted(alloc, shelf, Kind::Category, category)?;
    mirror_text(alloc, &admitted)
}

/// Reads two categories and judges them, one after the other, and reports the canonical text of their product.
pub fn product<S: Shelf>(
    alloc: Global,
    shelf: &mut S,
    first: &str,
    second: &str,
) -> Result<Vec<u8>, Stop>
    ensures { Worked S.files S.faults shelf.old shelf.new (product_work first.now second.now) result }
{
    let one = load_admitted(alloc, shelf, Kind::Category, first)?;
    let two = load_admitted(alloc, shelf, Kind::SecondCategory, second)?;
    product_text(alloc, &one, &two)
}

// The canonical text of the image by the number that a word says.
fn image_by(alloc: Global, admitted: &Admitted, word: &str) -> Result<Vec<u8>, Stop>
    requires { length admitted.now.names ≡ admitted.now.category.rules.count }
    ensures { Gives (λ text. text.items) result (image_by (named_draft admitted.now.names admitted.now.category) (plain_number_of word.now)) }
{
    match plain_number(word.as_bytes()) {
        Some(k) => image_text(alloc, admitted, k),
        None => Err(exponent_line(alloc)),
    }
}

// The canonical text of the image where z^k is put for z.
fn image_text(alloc: Global, admitted: &Admitted, k: u32) -> Result<Vec<u8>, Stop>
    requires { length admitted.now.names ≡ admitted.now.category.rules.count }
    ensures { Gives (λ text. text.items) result (image_text (named_draft admitted.now.names admitted.now.category) k) }
{
    if k > u32::from(admitted.category.ring().root()) {
        return Err(exponent_line(alloc));
    }
    exponent_text(alloc, admitted, k as u8)
}

// The same of a k that is at most the root.
fn exponent_text(alloc: Global, admitted: &Admitted, k: u8) -> Result<Vec<u8>, Stop>
    requires { length admitted.now.names ≡ admitted.now.category.rules.count }
    ensures { Gives (λ text. text.items) result (image_text (named_draft admitted.now.names admitted.now.category) k) }
{
    match category_images::galois(alloc, &admitted.category, k) {
        Ok(image) => made_text(alloc, &admitted.names, &image),
        Err(ImageFault::Exponent) => Err(exponent_line(alloc)),
        Err(ImageFault::Overflow(place)) => {
            Err(place_line(alloc, "galois", &admitted.names, &place))
        }
        Err(ImageFault::Memory) => Err(Stop::Memory),
    }
}

// The canonical text of the mirror.
fn mirror_text(alloc: Global, admitted: &Admitted) -> Result<Vec<u8>, Stop>
    requires { length admitted.now.names ≡ admitted.now.category.rules.count }
    ensures { Gives (λ text. text.items) result (mirror_text (named_draft admitted.now.names admitted.now.category)) }
{
    match category_images::mirror(alloc, &admitted.category) {
        Ok(mirror) => made_text(alloc, &admitted.names, &mirror),
        Err(ImageFault::Exponent) => unreachable!(),
        Err(ImageFault::Overflow(place)) => {
            Err(place_line(alloc, "mirror", &admitted.names, &place))
        }
        Err(ImageFault::Memory) => Err(Stop::Memory),
    }
}

// The canonical text of the product.
fn product_text(alloc: Global, one: &Admitted, two: &Admitted) -> Result<Vec<u8>, Stop>
    ensures { Gives (λ text. text.items) result (product_text (named_draft one.now.names one.now.category) (named_draft two.now.names two.now.category)) }
{
    let (first, second) = (&one.category, &two.category);
    match category_images::product(alloc, first, second) {
        Ok(product) => paired_text(alloc, &product),
        Err(ProductFault::Version) => Err(product_version_line(alloc)),
        Err(ProductFault::Roots) => {
            let (one, two) = (first.ring().root(), second.ring().root());
            Err(product_roots_line(alloc, one, two))
        }
        Err(ProductFault::Labels { count }) => Err(product_labels_line(alloc, count)),
        Err(ProductFault::Overflow(place)) => {
            let count = first.rules().count() * second.rules().count();
            Err(paired_line(alloc, count, &place))
        }
        Err(ProductFault::Memory) => Err(Stop::Memory),
    }
}

// The canonical text of a product, whose labels have the names `x0`, `x1` and so on.
fn paired_text(alloc: Global, product: &Category<Cyclo>) -> Result<Vec<u8>, Stop>
    ensures { Gives (λ text. text.items) result (Ok (canonical (named_symbols (pair_names product.now.rules.count) product.now.ring (symbols_of_root product.now)))) }
{
    match product_names(alloc, product.rules().count()) {
        Ok(names) => made_text(alloc, &names, product),
        Err(_) => Err(Stop::Memory),
    }
}

// The stop at a symbol of a product that doesn't fit.
fn paired_line(alloc: Global, count: u8, place: &Place) -> Stop
    requires some { 0 < count }
    requires few { count ≤ 12 }
    ensures { StopsWith (place_line (codes "product") (pair_names count) place.now) result }
{
    match product_names(alloc, count) {
        Ok(names) => place_line(alloc, "product", &names, place),
        Err(_) => Stop::Memory,
    }
}

// The canonical text of a category with these names.
fn made_text(alloc: Global, names: &Names, category: &Category<Cyclo>) -> Result<Vec<u8>, Stop>
    requires { length names.now ≡ category.now.rules.count }
    ensures { Gives (λ text. text.items) result (Ok (canonical (named_symbols names.now category.now.ring (symbols_of_root category.now)))) }
{
    let mut text = Vec::new(alloc);
    match write_parts(alloc, names, category.draft(), &mut text) {
        Ok(()) => Ok(text),
        Err(_) => Err(Stop::Memory),
    }
}
