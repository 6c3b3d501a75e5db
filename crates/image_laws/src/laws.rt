//! What is made from lawful categories is lawful, for the proofs of the crates above.

ghost use Rattle.std.specs.Prelude.{◌≡◌};
ghost use Rattle.symbol_table.specs.Category.{symbols};
ghost use Rattle.image_laws.specs.Category.{AreOfCategory};
ghost use Rattle.image_laws.specs.Images.{HasImages};
ghost use Rattle.image_laws.specs.Mirrors.{HasMirror};
ghost use Rattle.image_laws.specs.Products.{product_of};

use ring_laws::StarRing;
use symbol_table::Category;
use symbol_table::laws::all_labels;

/// The images of a category's symbols under a map of its ring that another one undoes are those of a category, and the
/// other one makes them the old ones again.
///
/// The map keeps sums, products and conjugates, so every equation of the laws goes over; what isn't zero stays so.
pub fn images<R: StarRing>(category: &Category<R>)
    ensures { HasImages (symbols R.StarRing category.now) }
{
    all_labels(category);
    // These calls tell the proof that the draft is lawful and its values are of the ring.
    let draft = category.draft();
    let _members = draft.version();
}

/// The mirror of a category is a category, and its mirror is the first again.
///
/// S is the inverse of R, so the two hexagons change places; R(a,a*,1) R(a*,a,1) theta_(a*) is the inverse of the twist
/// of a. See Kitaev 2006, Appendix E.
pub fn mirrors<R: StarRing>(category: &Category<R>)
    ensures { HasMirror (symbols R.StarRing category.now) }
{
    all_labels(category);
    // These calls tell the proof that the draft is lawful and its values are of the ring.
    let draft = category.draft();
    let _members = draft.version();
}

/// The product of two categories of version 2 over one ring is a category.
///
/// Every equation is the product of those of the two. That F(a,a*,a,a;1,1) isn't zero follows from the law of loop values
/// that gives it an inverse, so nothing is divided by.
pub fn products<R: StarRing>(one: &Category<R>, two: &Category<R>)
    requires ring { one.now.ring ≡ two.now.ring }
    requires first { one.now.version ≡ 2 }
    requires second { two.now.version ≡ 2 }
    ensures { AreOfCategory (product_of (symbols R.StarRing one.now) (symbols R.StarRing two.now)) }
{
    // These calls tell the proof that both drafts are lawful, and what their symbols obey at all labels.
    let _first = one.draft();
    let _second = two.draft();
    all_labels(one);
    all_labels(two);
}
