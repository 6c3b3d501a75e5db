//! The laws of single symbols and weights, checked in their order, with H and S where none has an event.
//!
//! Glossary:
//! - *weight laws*: all laws of the first version but the pentagon and the hexagons, in the order of the check
//!   (`specs/Order.antt`).
//! - *tells*: what a check of laws answers, H and S or the first event (`derive_symbols`, `specs/Told.antt`).
//! - *names no law*: an answer that is Ok, or want of memory (`specs/Answers.antt`).
//!
//! Source: Kitaev 2006, Appendix E.
#![tactic(auto)]

ghost use Rattle.std.specs.Prelude.{IfOk};
ghost use Rattle.fusion_rules.specs.Fusion.{fuses};
ghost use Rattle.fusion_rules.specs.Check.{RulesPass};
ghost use Rattle.symbol_table.specs.Category.{symbols};
ghost use Rattle.law_events.specs.Verdicts.{AllFit, AllHold};
ghost use Rattle.derive_symbols.specs.Told.{Tells};
ghost use Rattle.weight_check.specs.Answers.{NamesNoLaw};
ghost use Rattle.weight_check.specs.Order.{weight_laws};

mod inverses;
mod items;
mod rigid;
mod symbols;

use crate::inverses::check_inverses;
use crate::rigid::check_rigid;
use crate::symbols::check_symbols;
pub use derive_symbols::WeightFault;
use derive_symbols::derive_draft;
use ring_laws::StarRing;
use std::alloc::Global;
use symbol_table::{Derived, Draft};

/// H and S of a draft, or the first event of the weight laws.
fn derive_checked<R: StarRing>(alloc: Global, draft: &Draft<R>) -> Result<Derived<R>, WeightFault>
    requires { RulesPass draft.now.rules.count (fuses draft.now.rules) }
    ensures { Tells (R.ring draft.now.ring) R.held draft.now weight_laws result }
{
    check_symbols(draft)?;
    let derived = derive_draft(alloc, draft)?;
    check_inverses(draft, &derived)?;
    check_rigid(draft)?;
    Ok(derived)
}

/// H and S of a draft that meets the weight laws.
///
/// Asks that the rules pass. `Law` comes exactly where a law isn't met, with the first event: of the first law, in
/// the order of `weight_laws`, at its first index, in the order of its labels. Where the answer is Ok, each of
/// the laws holds; where each holds and every item of its evaluation fits, no law is named.
pub fn check<R: StarRing>(alloc: Global, draft: &Draft<R>) -> Result<Derived<R>, WeightFault>
    requires pass { RulesPass draft.now.rules.count (fuses draft.now.rules) }
    ensures told { Tells (R.ring draft.now.ring) R.held draft.now weight_laws result }
    ensures lawful { IfOk result (λ _. AllHold (symbols R.StarRing draft.now) weight_laws) }
    ensures complete { AllHold (symbols R.StarRing draft.now) weight_laws
        → AllFit (symbols R.StarRing draft.now) weight_laws → NamesNoLaw result }
{
    // Says that the values are of the ring.
    draft.f_is_of_ring();
    derive_checked(alloc, draft)
}

#[cfg(test)]
mod tests;
