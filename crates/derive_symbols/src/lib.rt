//! The derived symbols of a draft: H, the conjugate weighted F, and S, the negative exchange.
//!
//! Glossary:
//! - *stated H and S*: their evaluation from the left, which stops where an item doesn't fit
//!   (`symbol_table`, `specs/Evaluated.antt`).
//! - *tells*: what a check of laws answers, H and S or the first event (`specs/Told.antt`).
//! - *fills*: how a walk over the indices that go on from some labels changes derived values
//!   (`specs/Walk.antt`).
//!
//! Source: Kitaev 2006, Appendix E.2.
#![tactic(auto)]

ghost use Rattle.std.specs.Prelude.{◌≡◌, [], ◌∷◌};
ghost use Rattle.derive_symbols.specs.Told.{Tells};

mod evaluate;
mod walk;

use crate::walk::{Symbol, derive_more};
use ring_laws::StarRing;
use std::alloc::Global;
use symbol_table::{Derived, Draft, Event, Labels, Law};

/// Why a check of laws that derives symbols doesn't answer them.
#[derive(Debug, Drop)]
pub enum WeightFault {
    /// A law isn't met at an index.
    Law(Event),
    /// There was no memory for one value more.
    Memory,
}

impl From<Event> for WeightFault {
    ghost use Rattle.derive_symbols.specs.declared.WeightFault.TheVariants.{Law as LawFault};

    ghost from_gives = { λ event e. e ≡ LawFault event };

    fn from(event: Event) -> WeightFault {
        WeightFault::Law(event)
    }
}

/// H and S of a draft at every admissible index.
///
/// `Law` comes exactly where an evaluation doesn't fit, with the first index: first of `DeriveH` in the order of
/// the labels a, b, c, d, f, e, then of `DeriveS` in the order of a, b, c. The rules need not commute.
pub fn derive_draft<R: StarRing>(alloc: Global, draft: &Draft<R>) -> Result<Derived<R>, WeightFault>
    ensures told { Tells (R.ring draft.now.ring) R.held draft.now (Law.DeriveH ∷ Law.DeriveS ∷ []) result }
{
    let mut derived = Derived::new(alloc);
    derive_more(draft, &mut derived, Symbol::H, 6, Labels::new())?;
    derive_more(draft, &mut derived, Symbol::S, 3, Labels::new())?;
    Ok(derived)
}

#[cfg(test)]
mod tests;
