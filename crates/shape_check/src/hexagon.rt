ghost use Rattle.std.specs.Prelude.{◌≡◌, ◌<◌, All, length};
ghost use Rattle.symbol_table.specs.Category.{symbols};
ghost use Rattle.symbol_table.specs.Laws.{at6};
ghost use Rattle.law_events.specs.Sides.{hexagon_left, hexagon_step};
ghost use Rattle.kept_values.specs.Kept.{Grows, Told, value_of};
ghost use Rattle.shape_check.specs.Shapes.{symbol_of};

use crate::shape::Exchange;
use crate::table::Table;
use crate::terms::{add_product3, product3};
use kept_values::{Spread, Stop};

/// X(a,b,e) F(b,a,c,d;e,f) X(a,c,f), with X for R or for S.
pub(crate) fn left<R: Spread>(
    table: &mut Table<R>,
    exchange: Exchange,
    at: &[u8],
) -> Result<u32, Stop>
    requires long { length at.now ≡ 6 }
    requires labels { All (λ t. t < table.old.draft.rules.count) at.now }
    ensures draft { table.new.draft ≡ table.old.draft }
    ensures grows { Grows table.old.values table.new.values }
    ensures value { let c = symbols R.StarRing table.old.draft in
        Told (R.ring table.old.draft.ring) table.new.values result (at6 (hexagon_left c (symbol_of c exchange)) at.now) }
{
    let &[a, b, c, d, e, f] = at else {
        unreachable!()
    };
    let first = table.vertex(exchange, a, b, e);
    let second = table.f(b, a, c, d, e, f);
    let third = table.vertex(exchange, a, c, f);
    product3(table, first, second, third)
}

/// The sum with the term F(a,b,c,d;e,g) X(a,g,d) F(b,c,a,d;g,f), or the sum alone where that isn't admissible.
pub(crate) fn add_term<R: Spread>(
    table: &mut Table<R>,
    exchange: Exchange,
    at: &[u8],
    g: u8,
    sum: u32,
) -> Result<u32, Stop>
    requires long { length at.now ≡ 6 }
    requires labels { All (λ t. t < table.old.draft.rules.count) at.now }
    requires label { g < table.old.draft.rules.count }
    requires sum { sum < length table.old.values }
    ensures draft { table.new.draft ≡ table.old.draft }
    ensures grows { Grows table.old.values table.new.values }
    ensures value { let c = symbols R.StarRing table.old.draft in
        Told (R.ring table.old.draft.ring) table.new.values result
        (at6 (hexagon_step c (symbol_of c exchange)) at.now g
        (value_of (R.ring table.old.draft.ring) table.old.values sum)) }
{
    let &[a, b, c, d, e, f] = at else {
        unreachable!()
    };
    let rules = table.rules();
    if !rules.allows(b, c, g) || !rules.allows(a, g, d) || !rules.allows(g, a, d) {
        return Ok(sum);
    }
    let first = table.f(a, b, c, d, e, g);
    let second = table.vertex(exchange, a, g, d);
    let third = table.f(b, c, a, d, g, f);
    add_product3(table, sum, first, second, third)
}
