//! Powers of a root of unity.

ghost use Rattle.std.specs.Prelude.{◌≡◌, ◌≤◌, ◌<◌, IsTrue};
ghost use Rattle.poly_core.specs.Table.{at};
ghost use Rattle.cyclo_core.specs.Ratio.{ring_at};
ghost use Rattle.category_maker.specs.MadeCategory.{root_power};

use cyclo_core::{Cyclo, Number};
use poly_core::{DEGREE_LIMIT, PowerTable};

/// The root of unity of the ring to a power below its order, from the table of its powers.
#[tactic(auto, unfolding(crate::specs::MadeCategory::root_power))]
pub(crate) fn root_power(ring: &Cyclo, table: &PowerTable, k: u8) -> Number
    requires same { table.now ≡ ring.now }
    requires few { ring.now ≤ 12 }
    requires power { k < ring.now }
    ensures value { result ≡ root_power ring.now k }
    ensures member { IsTrue ((ring_at ring.now).member result) }
{
    match ring.reduced(&widened(table.row(k)), 1) {
        Ok(number) => number,
        Err(_) => unreachable!(),
    }
}

/// The same numbers with more bits.
fn widened(row: &[i8; DEGREE_LIMIT]) -> [i128; DEGREE_LIMIT]
    ensures { at result ≡ at row.now }
{
    let mut wide = [0; DEGREE_LIMIT];
    for j in 0..DEGREE_LIMIT {
        wide[j] = i128::from(row[j]);
    }
    wide
}
