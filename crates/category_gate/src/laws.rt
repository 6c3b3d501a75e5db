//! What the first fault says of the laws, both ways.

ghost use Rattle.symbol_table.specs.Symbols.{Given, IsOfRing, symbols_of};
ghost use Rattle.symbol_table.specs.Category.{symbols};
ghost use Rattle.category_gate.specs.Gate.{IsComplete, IsSound};

use ring_laws::StarRing;
use symbol_table::Draft;

/// Of any draft: without a fault of the rules and without an event of all laws it is lawful; and where it is lawful
/// and every item fits there is neither.
pub fn of_draft<R: StarRing>(draft: &Draft<R>)
    ensures sound { IsSound (symbols R.StarRing draft.now) }
    ensures complete { IsComplete (symbols R.StarRing draft.now) }
{
    // Says that the values are of the ring.
    draft.f_is_of_ring();
}

/// The same of whatever is given over a ring. That lawful symbols have no event asks that each F is of the ring.
pub fn of_given<R: StarRing>(_ring: &R)
    ensures sound { (g : Given R.Elem) → IsSound (symbols_of (R.ring _ring.now) R.held g) }
    ensures complete { (g : Given R.Elem) → IsOfRing (symbols_of (R.ring _ring.now) R.held g) → IsComplete (symbols_of (R.ring _ring.now) R.held g) }
{}
