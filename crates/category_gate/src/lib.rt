//! The gate: a draft is admitted as a category exactly when it is lawful, unless an item of the check is too
//! large.
//!
//! Glossary:
//! - *first fault*: the first fault of the rules, else the first event of the laws (`specs/Gate.antt`).
//! - *laws behind*: the pentagon and the hexagons (`shape_check`), and in version 2 the laws of twists and loop values
//!   (`specs/Order.antt`, these in `src/marks.rt`).
//! - *fits*: no item of the stated evaluation of a law is too large (`law_events`, `specs/Verdicts.antt`).
//! - *sound, complete*: without a first fault the symbols are lawful, and lawful symbols whose items fit have none
//!   (`specs/Gate.antt`, laws in [`laws`]).
//!
//! Source: Kitaev 2006, Appendix E; Wang, CBMS 112. The order of the check: `docs/FORMATS.md`.
#![tactic(auto)]

ghost use Rattle.std.specs.Prelude.{◌≡◌, IfOk};
ghost use Rattle.symbol_table.specs.Category.{symbols};
ghost use Rattle.symbol_table.specs.Draft.{given};
ghost use Rattle.symbol_table.specs.Derived.{HoldsSymbols};
ghost use Rattle.symbol_table.specs.Laws.{IsLawful, second_laws};
ghost use Rattle.fusion_rules.specs.Check.{RulesPass};
ghost use Rattle.fusion_rules.specs.First.{Answers};
ghost use Rattle.fusion_rules.specs.Fusion.{fuses};
ghost use Rattle.law_events.specs.Sides.{first_in};
ghost use Rattle.law_events.specs.Verdicts.{EveryItemFits};
ghost use Rattle.shape_check.specs.Answers.{Passes};
ghost use Rattle.category_gate.specs.Order.{behind_laws};
ghost use Rattle.category_gate.specs.Gate.{Admits, IsOkOrMemory};

pub mod laws;
mod marks;

pub use crate::marks::check_marks;
use fusion_rules::RulesFault;
use kept_values::Spread;
use ring_laws::StarRing;
use shape_check::ShapeFault;
use std::alloc::Global;
use symbol_table::{Category, Derived, Draft, Event};
use weight_check::WeightFault;

/// Why a draft isn't admitted.
#[derive(Debug, Drop)]
pub enum GateFault {
    /// The fusion rules aren't those of a fusion category.
    Rules(RulesFault),
    /// A law isn't met, or an item of it is too large.
    Law(Event),
    /// There was no memory for the derived symbols, or for the values that the check keeps. It comes only where the rules
    /// pass.
    Memory,
}

impl From<RulesFault> for GateFault {
    ghost use Rattle.category_gate.specs.declared.GateFault.TheVariants.{Rules};

    ghost from_gives = { λ fault e. e ≡ Rules fault };

    fn from(fault: RulesFault) -> GateFault {
        GateFault::Rules(fault)
    }
}

impl From<WeightFault> for GateFault {
    ghost use Rattle.category_gate.specs.Faults.{of_weights};

    ghost from_gives = { λ fault e. e ≡ of_weights fault };

    fn from(fault: WeightFault) -> GateFault {
        match fault {
            WeightFault::Law(event) => GateFault::Law(event),
            WeightFault::Memory => GateFault::Memory,
        }
    }
}

impl From<ShapeFault> for GateFault {
    ghost use Rattle.category_gate.specs.Faults.{of_shapes};

    ghost from_gives = { λ fault e. e ≡ of_shapes fault };

    fn from(fault: ShapeFault) -> GateFault {
        match fault {
            ShapeFault::Law(event) => GateFault::Law(event),
            ShapeFault::Memory => GateFault::Memory,
        }
    }
}

/// Whether the laws of twists and loop values hold where the version has them: else the first event. Takes no memory.
fn check_second<R: StarRing>(draft: &Draft<R>, derived: &Derived<R>) -> Result<(), Event>
    requires pass { RulesPass draft.now.rules.count (fuses draft.now.rules) }
    requires holds { HoldsSymbols (R.ring draft.now.ring) (given draft.now) derived.now }
    ensures { Answers result (first_in (symbols R.StarRing draft.now) (second_laws draft.now.version)) }
{
    if draft.version() == 2 {
        check_marks(draft, derived)
    } else {
        Ok(())
    }
}

/// Whether the laws behind those of single symbols and weights hold: else the first event.
fn check_behind<R: Spread>(
    alloc: Global,
    draft: &Draft<R>,
    derived: &Derived<R>,
) -> Result<(), ShapeFault>
    requires pass { RulesPass draft.now.rules.count (fuses draft.now.rules) }
    requires holds { HoldsSymbols (R.ring draft.now.ring) (given draft.now) derived.now }
    ensures { Passes result (first_in (symbols R.StarRing draft.now) (behind_laws draft.now.version)) }
{
    shape_check::check(alloc, draft, derived)?;
    match check_second(draft, derived) {
        Ok(()) => Ok(()),
        Err(event) => Err(ShapeFault::Law(event)),
    }
}

/// H and S of a draft that has no first fault.
fn check<R: Spread>(alloc: Global, draft: &Draft<R>) -> Result<Derived<R>, GateFault>
    ensures told { Admits (symbols R.StarRing draft.now) result }
    ensures holds { IfOk result (λ derived. HoldsSymbols (R.ring draft.now.ring) (given draft.now) derived) }
{
    draft.rules().check()?;
    let derived = weight_check::check(alloc, draft)?;
    check_behind(alloc, draft, &derived)?;
    Ok(derived)
}

/// The category of a draft.
///
/// Answers the first fault of the rules, else the first event of the laws of the draft's version, else the category of
/// this draft, which is lawful. The draft is given up on a refusal. A lawful draft whose items all fit is admitted, or there was no
/// memory for its derived symbols or for the values that the check keeps.
pub fn admit<R: Spread>(alloc: Global, draft: Draft<R>) -> Result<Category<R>, GateFault>
    ensures told { Admits (symbols R.StarRing draft) result }
    ensures same { IfOk result (λ category. category ≡ draft) }
    ensures lawful { IfOk result (λ category. IsLawful (symbols R.StarRing category)) }
    ensures complete { IsLawful (symbols R.StarRing draft) → EveryItemFits (symbols R.StarRing draft) → IsOkOrMemory result }
{
    // Says that no event means lawful, and that a lawful draft whose items fit has none.
    laws::of_draft(&draft);
    let derived = check(alloc, &draft)?;
    Ok(Category::seal(draft, derived))
}

#[cfg(test)]
mod tests;
