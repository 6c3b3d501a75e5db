//! The values of a symbol at all its indices.

ghost use Rattle.std.specs.Prelude.{◌≡◌, ◌<◌, ◌+◌, [], All, length, true};
ghost use Rattle.fusion_rules.specs.Fusion.{fuses};
ghost use Rattle.symbol_table.specs.Laws.{fuse_all};
ghost use Rattle.law_events.specs.First.{fuse_known, within};
ghost use Rattle.category_images.specs.Places.{places, triples};
ghost use Rattle.category_images.specs.Making.{Belongs, Fills, IsOf};

use crate::making::{Making, Stop};
use crate::pattern::Pattern;
use crate::place::{Place, Symbol};
use fusion_rules::Rules;
use symbol_table::{Labels, Triple};

/// Whether a triple lies within so many places.
fn is_within(triple: &Triple, places: usize) -> bool
    ensures { result ≡ within places triple.now }
{
    usize::from(triple.a) < places
        && usize::from(triple.b) < places
        && usize::from(triple.c) < places
}

/// Whether the labels fuse at each triple that lies within them.
fn fuse_known(rules: &Rules, index: &[u8], triples: &[Triple]) -> bool
    requires { All (λ t. t < rules.now.count) index.now }
    ensures { result ≡ fuse_known (fuses rules.now) index.now triples.now }
{
    for t in triples {
        if is_within(t, index.len())
            && !rules.allows(
                index[usize::from(t.a)],
                index[usize::from(t.b)],
                index[usize::from(t.c)],
            )
        {
            return false;
        }
    }
    true
}

/// Puts the value of a symbol at an admissible index.
fn fill_at<P: Pattern>(
    pattern: &P,
    made: &mut Making,
    symbol: Symbol,
    index: Labels,
) -> Result<(), Stop>
    requires valid { P.Valid pattern.now }
    requires of { IsOf (P.number pattern.now) (P.wanted pattern.now) made.old }
    requires belongs { Belongs (P.wanted pattern.now).version symbol }
    requires long { length index ≡ places symbol }
    requires labels { All (λ t. t < (P.wanted pattern.now).count) index }
    requires admissible { fuse_all (P.wanted pattern.now).fuse index (triples symbol) ≡ true }
    ensures { Fills (P.number pattern.now) (P.wanted pattern.now) (P.stated pattern.now) result symbol 0 index made.old made.new }
{
    let Ok(value) = pattern.item(symbol, index.as_slice()) else {
        return Err(Stop::Overflow(Place { symbol, index }));
    };
    match made.put(symbol, index.as_slice(), value) {
        Ok(()) => Ok(()),
        Err(_) => Err(Stop::Memory),
    }
}

/// Puts the values of a symbol at every admissible index that goes on from these labels with so many more. Labels
/// that don't fuse at a triple aren't gone on with.
fn fill_more<P: Pattern>(
    pattern: &P,
    made: &mut Making,
    symbol: Symbol,
    more: u8,
    index: Labels,
) -> Result<(), Stop>
    requires valid { P.Valid pattern.now }
    requires of { IsOf (P.number pattern.now) (P.wanted pattern.now) made.old }
    requires belongs { Belongs (P.wanted pattern.now).version symbol }
    requires long { length index + more ≡ places symbol }
    requires labels { All (λ t. t < (P.wanted pattern.now).count) index }
    ensures { Fills (P.number pattern.now) (P.wanted pattern.now) (P.stated pattern.now) result symbol more index made.old made.new }
{
    if !fuse_known(made.draft.rules(), index.as_slice(), symbol.law().triples()) {
        return Ok(());
    }
    if more == 0 {
        return fill_at(pattern, made, symbol, index);
    }
    for t in 0..made.draft.rules().count() {
        fill_more(pattern, made, symbol, more - 1, index.with(t))?;
    }
    Ok(())
}

/// Puts the values of a symbol at every admissible index.
pub(crate) fn fill<P: Pattern>(pattern: &P, made: &mut Making, symbol: Symbol) -> Result<(), Stop>
    requires valid { P.Valid pattern.now }
    requires of { IsOf (P.number pattern.now) (P.wanted pattern.now) made.old }
    requires belongs { Belongs (P.wanted pattern.now).version symbol }
    ensures { Fills (P.number pattern.now) (P.wanted pattern.now) (P.stated pattern.now) result symbol (places symbol) [] made.old made.new }
{
    fill_more(pattern, made, symbol, symbol.law().places(), Labels::new())
}
