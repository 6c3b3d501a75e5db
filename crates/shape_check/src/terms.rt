ghost use Rattle.std.specs.Prelude.{◌≡◌, ◌<◌, length};
ghost use Rattle.ring_laws.specs.Stated.{add_product3_at, product3_at};
ghost use Rattle.kept_values.specs.Kept.{Grows, Told, value_of};

use crate::table::Table;
use kept_values::{Spread, Stop};

/// The number of the product of three kept values, from the left.
#[tactic(auto, using(kept_values::proofs::ToldLemmas::told_next, kept_values::proofs::ToldLemmas::told_stop, kept_values::proofs::ToldLemmas::grows_on))]
pub(crate) fn product3<R: Spread>(table: &mut Table<R>, x: u32, y: u32, z: u32) -> Result<u32, Stop>
    requires x { x < length table.old.values }
    requires y { y < length table.old.values }
    requires z { z < length table.old.values }
    ensures draft { table.new.draft ≡ table.old.draft }
    ensures grows { Grows table.old.values table.new.values }
    ensures value { let ring = R.ring table.old.draft.ring in
        let old = table.old.values in
        Told ring table.new.values result
        (product3_at ring (value_of ring old x) (value_of ring old y) (value_of ring old z)) }
{
    let first = table.product(x, y)?;
    table.product(first, z)
}

/// The number of a sum with the product of three kept values.
#[tactic(auto, using(kept_values::proofs::ToldLemmas::told_next, kept_values::proofs::ToldLemmas::told_stop, kept_values::proofs::ToldLemmas::grows_on))]
pub(crate) fn add_product3<R: Spread>(
    table: &mut Table<R>,
    sum: u32,
    x: u32,
    y: u32,
    z: u32,
) -> Result<u32, Stop>
    requires sum { sum < length table.old.values }
    requires x { x < length table.old.values }
    requires y { y < length table.old.values }
    requires z { z < length table.old.values }
    ensures draft { table.new.draft ≡ table.old.draft }
    ensures grows { Grows table.old.values table.new.values }
    ensures value { let ring = R.ring table.old.draft.ring in
        let old = table.old.values in
        Told ring table.new.values result
        (add_product3_at ring (value_of ring old sum) (value_of ring old x) (value_of ring old y)
        (value_of ring old z)) }
{
    let product = product3(table, x, y, z)?;
    table.sum(sum, product)
}
