//! The pentagon and the hexagons of a draft, judged over values that are kept once.
//!
//! Glossary:
//! - *shape*: a law whose two sides are products of F-symbols and exchanges: the pentagon, the hexagon of R or
//!   that of S (`specs/Shapes.antt`; their order: `specs/Order.antt`).
//! - *table*: F, R and S of a draft at all labels, as numbers of kept values (`specs/Table.antt`;
//!   *kept values*: `kept_values`).
//! - *place*: labels as the digits of a number to the base of the count (`specs/Place.antt`).
//! - *passes*: the answer is the first event, or there is none (`specs/Answers.antt`).
//! - *settles, stops*: what the triples that lie within some labels say of all indices that go on from them
//!   (`specs/Walk.antt`).
//!
//! Source of the laws: Kitaev 2006, Appendix E; Wang, CBMS 112, chapter 4. Their stated evaluation:
//! `docs/FORMATS.md`.
#![tactic(auto)]

ghost use Rattle.std.specs.Prelude.{◌≡◌, ◌<◌, ◌≤◌};
ghost use Rattle.symbol_table.specs.Category.{symbols};
ghost use Rattle.symbol_table.specs.Draft.{given};
ghost use Rattle.symbol_table.specs.Derived.{HoldsSymbols};
ghost use Rattle.law_events.specs.Sides.{first_in};
ghost use Rattle.shape_check.specs.Answers.{Passes};
ghost use Rattle.shape_check.specs.Order.{shape_laws};

mod hexagon;
mod pentagon;
mod place;
mod shape;
mod sides;
mod table;
mod terms;
mod walk;

use crate::shape::{Exchange, Shape};
use crate::table::Table;
use crate::walk::check_shape;
use kept_values::Spread;
use std::alloc::{AllocError, Global};
use symbol_table::{Derived, Draft, Event};

/// Why a check of shapes doesn't pass.
#[derive(Debug, Drop)]
pub enum ShapeFault {
    /// A law isn't met at an index, or an item of it is too large there.
    Law(Event),
    /// There was no memory for the values.
    Memory,
}

impl From<AllocError> for ShapeFault {
    ghost use Rattle.shape_check.specs.declared.ShapeFault.TheVariants.{Memory};

    ghost from_gives = { λ _ fault. fault ≡ Memory };

    fn from(_error: AllocError) -> ShapeFault {
        ShapeFault::Memory
    }
}

/// How many products and how many sums are remembered: sixteen times the fourth power of the count of labels, as
/// a power of two, and 2^18 at most.
fn room(count: u8) -> usize
    requires { count ≤ 12 }
    ensures { 0 < result }
{
    let square = usize::from(count) * usize::from(count);
    (16 * square * square).next_power_of_two().min(1 << 18)
}

/// Whether the pentagon and the hexagons of R and of S hold at every index of a draft: else the first event, of the
/// pentagon in the order of the labels p, l, m, r, x, y, z, f, q, then of R in the order of a, b, c, d, e, f, then
/// of S.
///
/// `Fails` comes where all items fit and the equation is false, `Overflow` where an item doesn't fit, `Memory` where
/// there is no memory for the values. Asks that the derived values are those of the draft; the rules need not pass.
pub fn check<R: Spread>(
    alloc: Global,
    draft: &Draft<R>,
    derived: &Derived<R>,
) -> Result<(), ShapeFault>
    requires { HoldsSymbols (R.ring draft.now.ring) (given draft.now) derived.now }
    ensures { Passes result (first_in (symbols R.StarRing draft.now) shape_laws) }
{
    let mut table = Table::new(alloc, draft, derived, room(draft.rules().count()))?;
    check_shape(&mut table, Shape::Pentagon)?;
    check_shape(&mut table, Shape::Hexagon(Exchange::Positive))?;
    check_shape(&mut table, Shape::Hexagon(Exchange::Negative))
}

#[cfg(test)]
mod tests;
