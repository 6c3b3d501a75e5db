ghost use Rattle.std.specs.Prelude.{◌≡◌, ◌<◌, All, length};
ghost use Rattle.symbol_table.specs.Category.{symbols};
ghost use Rattle.symbol_table.specs.Laws.{at9};
ghost use Rattle.law_events.specs.Sides.{pentagon_left, pentagon_step};
ghost use Rattle.kept_values.specs.Kept.{Grows, Told, value_of};

use crate::table::Table;
use crate::terms::add_product3;
use kept_values::{Spread, Stop};

/// F(x,m,r,z;y,f) F(p,l,f,z;x,q), and 0 where f doesn't fuse with x to z.
pub(crate) fn left<R: Spread>(table: &mut Table<R>, at: &[u8]) -> Result<u32, Stop>
    requires long { length at.now ≡ 9 }
    requires labels { All (λ t. t < table.old.draft.rules.count) at.now }
    ensures draft { table.new.draft ≡ table.old.draft }
    ensures grows { Grows table.old.values table.new.values }
    ensures value { Told (R.ring table.old.draft.ring) table.new.values result
        (at9 (pentagon_left (symbols R.StarRing table.old.draft)) at.now) }
{
    let &[p, l, m, r, x, y, z, f, q] = at else {
        unreachable!()
    };
    if !table.rules().allows(x, f, z) {
        return Ok(table.zero());
    }
    let first = table.f(x, m, r, z, y, f);
    let second = table.f(p, l, f, z, x, q);
    table.product(first, second)
}

/// The sum with the term F(p,l,m,y;x,e) F(p,e,r,z;y,q) F(l,m,r,q;e,f), or the sum alone where that isn't
/// admissible.
pub(crate) fn add_term<R: Spread>(
    table: &mut Table<R>,
    at: &[u8],
    e: u8,
    sum: u32,
) -> Result<u32, Stop>
    requires long { length at.now ≡ 9 }
    requires labels { All (λ t. t < table.old.draft.rules.count) at.now }
    requires label { e < table.old.draft.rules.count }
    requires sum { sum < length table.old.values }
    ensures draft { table.new.draft ≡ table.old.draft }
    ensures grows { Grows table.old.values table.new.values }
    ensures value { Told (R.ring table.old.draft.ring) table.new.values result
        (at9 (pentagon_step (symbols R.StarRing table.old.draft)) at.now e
        (value_of (R.ring table.old.draft.ring) table.old.values sum)) }
{
    let &[p, l, m, r, x, y, z, f, q] = at else {
        unreachable!()
    };
    let rules = table.rules();
    if !rules.allows(l, m, e) || !rules.allows(p, e, y) || !rules.allows(e, r, q) {
        return Ok(sum);
    }
    let first = table.f(p, l, m, y, x, e);
    let second = table.f(p, e, r, z, y, q);
    let third = table.f(l, m, r, q, e, f);
    add_product3(table, sum, first, second, third)
}
