//! The category of a pattern.

ghost use Rattle.std.specs.Prelude.{◌≡◌, ◌⊎◌, All};
ghost use Rattle.category_images.specs.Places.{first_place, symbols_in};
ghost use Rattle.category_images.specs.Answers.{IsMade};
ghost use Rattle.category_images.specs.Making.{AreFilled, Belongs, FillsAll, IsOf};
ghost use Rattle.category_images.specs.Made.{Makes};

use crate::making::{Making, Stop};
use crate::pattern::Pattern;
use crate::place::Symbol;
use crate::rules::rules_of;
use crate::walk::fill;
use cyclo_core::Cyclo;
use std::alloc::Global;
use symbol_table::{Category, Derived, Draft};

/// The symbols of version 1, in their order.
const FIRST: [Symbol; 6] = [
    Symbol::F,
    Symbol::R,
    Symbol::W,
    Symbol::V,
    Symbol::H,
    Symbol::S,
];

/// The symbols of version 2, in their order.
const SECOND: [Symbol; 8] = [
    Symbol::F,
    Symbol::R,
    Symbol::W,
    Symbol::V,
    Symbol::H,
    Symbol::S,
    Symbol::Twist,
    Symbol::Loop,
];

/// The symbols of a version, in their order.
fn symbols_in(version: u8) -> &'static [Symbol]
    requires { (version ≡ 1) ⊎ (version ≡ 2) }
    ensures symbols { result.now ≡ symbols_in version }
    ensures belong { All (Belongs version) result.now }
{
    if version == 2 { &SECOND } else { &FIRST }
}

/// A category with nothing but its rules.
fn begin<P: Pattern>(alloc: Global, pattern: &P) -> Making
    requires { P.Valid pattern.now }
    ensures { IsOf (P.number pattern.now) (P.wanted pattern.now) result }
{
    let Ok(ring) = Cyclo::new(pattern.root()) else {
        unreachable!();
    };
    let mut draft = Draft::new(alloc, ring, rules_of(pattern));
    if pattern.version() == 2 {
        draft.second();
    }
    Making {
        draft,
        derived: Derived::new(alloc),
    }
}

/// Puts the values of several symbols at all their admissible indices.
fn fill_all<P: Pattern>(pattern: &P, made: &mut Making, symbols: &[Symbol]) -> Result<(), Stop>
    requires valid { P.Valid pattern.now }
    requires of { IsOf (P.number pattern.now) (P.wanted pattern.now) made.old }
    requires belong { All (Belongs (P.wanted pattern.now).version) symbols.now }
    ensures { FillsAll (P.number pattern.now) (P.wanted pattern.now) (P.stated pattern.now) result symbols.now made.new }
{
    for symbol in symbols {
        fill(pattern, made, *symbol)?;
    }
    Ok(())
}

/// The category of a pattern.
pub(crate) fn make<P: Pattern>(alloc: Global, pattern: &P) -> Result<Category<Cyclo>, Stop>
    requires { P.Valid pattern.now }
    ensures { Makes (P.number pattern.now) (P.wanted pattern.now) (P.stated pattern.now) result }
{
    let mut made = begin(alloc, pattern);
    fill_all(pattern, &mut made, symbols_in(pattern.version()))?;
    Ok(finish(pattern, made))
}

/// The category whose values all stand.
fn finish<P: Pattern>(pattern: &P, made: Making) -> Category<Cyclo>
    requires valid { P.Valid pattern.now }
    requires filled { AreFilled (P.number pattern.now) (P.wanted pattern.now) (P.stated pattern.now) (symbols_in (P.wanted pattern.now).version) made }
    ensures { IsMade (P.number pattern.now) (P.wanted pattern.now) (first_place (P.wanted pattern.now) (P.stated pattern.now)) result }
{
    pattern.is_lawful();
    let Making { draft, derived } = made;
    Category::seal(draft, derived)
}
