//! What the first event says of the laws, both ways, for the proofs of the crates above.

ghost use Rattle.symbol_table.specs.Symbols.{Given, IsOfRing, symbols_of};
ghost use Rattle.law_events.specs.Verdicts.{HoldsWithoutEvent, NoEventWhereHolds};

use ring_laws::StarRing;

/// Of whatever is given over a ring: without an event each law of the version holds; and where each holds, every
/// item fits and each F is of the ring, there is no event.
pub fn of_given<R: StarRing>(_ring: &R)
    ensures sound { (g : Given R.Elem) → HoldsWithoutEvent (symbols_of (R.ring _ring.now) R.held g) }
    ensures complete { (g : Given R.Elem) → IsOfRing (symbols_of (R.ring _ring.now) R.held g)
        → NoEventWhereHolds (symbols_of (R.ring _ring.now) R.held g) }
{}
