//! The two hexagons of a draft, checked index by index.
//!
//! Glossary:
//! - *exchange*: the positive exchange of neighbours, whose symbol is R, or the negative one, whose symbol
//!   is S (`specs/Exchange.antt`).
//! - *hexagon*: with X for R or for S, X(a,b,e) F(b,a,c,d;e,f) X(a,c,f) is the sum over g of
//!   F(a,b,c,d;e,g) X(a,g,d) F(b,c,a,d;g,f) (`symbol_table`, `specs/Laws.antt`).
//! - *index*: the labels a, b, c, d, e, f.
//! - *left side*, *term*, *right side*: how both sides are evaluated (`law_events`, `specs/Sides.antt`).
//! - *event*: an index with a false equation, or with an item that doesn't fit (`law_events`,
//!   `specs/First.antt`).
//!
//! Source: Kitaev 2006, Appendix E; Wang, CBMS 112, chapter 4.
#![tactic(auto)]

ghost use Rattle.std.specs.Prelude.{IsOk, OnOk};
ghost use Rattle.fusion_rules.specs.First.{Answers};
ghost use Rattle.symbol_table.specs.Draft.{given};
ghost use Rattle.symbol_table.specs.Derived.{HoldsSymbols};
ghost use Rattle.symbol_table.specs.Category.{symbols};
ghost use Rattle.law_events.specs.Sides.{first_in};
ghost use Rattle.law_events.specs.Verdicts.{AllFit, AllHold};
ghost use Rattle.hexagon_check.specs.Exchange.{hexagon_laws};

mod exchange;
mod sides;

use crate::exchange::Exchange;
use crate::sides::Hexagon;
use ring_laws::StarRing;
use symbol_table::{Derived, Draft, Event, Law};

/// Whether the hexagons of R and of S hold at every index of a draft: else the first event, of R in the order
/// of the labels a, b, c, d, e, f, then of S.
///
/// `Fails` comes where all items fit and the equation is false, `Overflow` where an item doesn't fit. Asks that
/// the derived values are those of the draft; the rules need not pass. Takes no memory.
pub fn check<R: StarRing>(draft: &Draft<R>, derived: &Derived<R>) -> Result<(), Event>
    requires holds { HoldsSymbols (R.ring draft.now.ring) (given draft.now) derived.now }
    ensures event { Answers result
        (first_in (symbols R.StarRing draft.now) hexagon_laws) }
    ensures lawful { OnOk result (AllHold (symbols R.StarRing draft.now) hexagon_laws) }
    ensures complete { AllHold (symbols R.StarRing draft.now) hexagon_laws
        → AllFit (symbols R.StarRing draft.now) hexagon_laws → IsOk result }
{
    let positive = Hexagon {
        draft,
        derived,
        exchange: Exchange::Positive,
    };
    law_events::check(draft, Law::HexagonOne, |at| positive.verdict(at))?;
    let negative = Hexagon {
        draft,
        derived,
        exchange: Exchange::Negative,
    };
    law_events::check(draft, Law::HexagonTwo, |at| negative.verdict(at))
}

#[cfg(test)]
mod tests;
