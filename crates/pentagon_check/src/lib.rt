//! The pentagon of a draft, checked index by index.
//!
//! Glossary:
//! - *pentagon*: F(x,m,r,z;y,f) F(p,l,f,z;x,q) is the sum over e of
//!   F(p,l,m,y;x,e) F(p,e,r,z;y,q) F(l,m,r,q;e,f) (`symbol_table`, `specs/Laws.antt`).
//! - *index*: the labels p, l, m, r, x, y, z, f, q.
//! - *left side*, *term*, *right side*: how both sides are evaluated (`law_events`, `specs/Sides.antt`).
//! - *event*: an index with a false equation, or with an item that doesn't fit (`law_events`,
//!   `specs/First.antt`).
//!
//! Source: Kitaev 2006, Appendix E; Wang, CBMS 112, chapter 4.
#![tactic(auto)]

ghost use Rattle.std.specs.Prelude.{IsOk, OnOk};
ghost use Rattle.fusion_rules.specs.First.{Answers};
ghost use Rattle.symbol_table.specs.Category.{symbols};
ghost use Rattle.symbol_table.specs.Laws.{LawHolds};
ghost use Rattle.symbol_table.specs.declared.law.Law.TheVariants.{Pentagon};
ghost use Rattle.law_events.specs.Sides.{first_of};
ghost use Rattle.law_events.specs.Verdicts.{Fits};

mod sides;

use crate::sides::pentagon;
use ring_laws::StarRing;
use symbol_table::{Draft, Event, Law};

/// Whether the pentagon holds at every index of a draft: else the first event, in the order of the labels
/// p, l, m, r, x, y, z, f, q.
///
/// `Fails` comes where all items fit and the equation is false, `Overflow` where an item doesn't fit. The rules
/// need not pass. Takes no memory.
pub fn check<R: StarRing>(draft: &Draft<R>) -> Result<(), Event>
    ensures event { Answers result
        (first_of (symbols R.StarRing draft.now) Pentagon) }
    ensures lawful { OnOk result
        (LawHolds (symbols R.StarRing draft.now) Pentagon) }
    ensures complete { LawHolds (symbols R.StarRing draft.now) Pentagon
        → Fits (symbols R.StarRing draft.now) Pentagon → IsOk result }
{
    law_events::check(draft, Law::Pentagon, |at| pentagon(draft, at))
}

#[cfg(test)]
mod tests;
