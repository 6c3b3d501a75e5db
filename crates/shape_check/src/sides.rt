ghost use Rattle.std.specs.Prelude.{◌≡◌, ◌<◌, All, length};
ghost use Rattle.symbol_table.specs.Category.{symbols};
ghost use Rattle.symbol_table.specs.Laws.{form_of};
ghost use Rattle.kept_values.specs.Kept.{Grows, Told, value_of};
ghost use Rattle.shape_check.specs.Answers.{Judges};
ghost use Rattle.shape_check.specs.Shapes.{law_of, left_at, right_at, step_at, told_at};

use crate::shape::Shape;
use crate::table::Table;
use crate::{hexagon, pentagon};
use kept_values::{Spread, Stop};

/// The left side of the law of a shape.
fn left<R: Spread>(table: &mut Table<R>, shape: Shape, at: &[u8]) -> Result<u32, Stop>
    requires long { length at.now ≡ (form_of (law_of shape)).places }
    requires labels { All (λ t. t < table.old.draft.rules.count) at.now }
    ensures draft { table.new.draft ≡ table.old.draft }
    ensures grows { Grows table.old.values table.new.values }
    ensures value { Told (R.ring table.old.draft.ring) table.new.values result
        (left_at (symbols R.StarRing table.old.draft) shape at.now) }
{
    match shape {
        Shape::Pentagon => pentagon::left(table, at),
        Shape::Hexagon(exchange) => hexagon::left(table, exchange, at),
    }
}

/// The sum with the term of a label.
fn add_term<R: Spread>(
    table: &mut Table<R>,
    shape: Shape,
    at: &[u8],
    label: u8,
    sum: u32,
) -> Result<u32, Stop>
    requires long { length at.now ≡ (form_of (law_of shape)).places }
    requires labels { All (λ t. t < table.old.draft.rules.count) at.now }
    requires label { label < table.old.draft.rules.count }
    requires sum { sum < length table.old.values }
    ensures draft { table.new.draft ≡ table.old.draft }
    ensures grows { Grows table.old.values table.new.values }
    ensures value { Told (R.ring table.old.draft.ring) table.new.values result
        (step_at (symbols R.StarRing table.old.draft) shape at.now label
        (value_of (R.ring table.old.draft.ring) table.old.values sum)) }
{
    match shape {
        Shape::Pentagon => pentagon::add_term(table, at, label, sum),
        Shape::Hexagon(exchange) => hexagon::add_term(table, exchange, at, label, sum),
    }
}

/// The sum of the terms, in the order of the labels.
#[tactic(auto, using(kept_values::proofs::ToldLemmas::one_step, kept_values::proofs::ToldLemmas::no_step, kept_values::proofs::ToldLemmas::grows_on))]
fn right<R: Spread>(table: &mut Table<R>, shape: Shape, at: &[u8]) -> Result<u32, Stop>
    requires long { length at.now ≡ (form_of (law_of shape)).places }
    requires labels { All (λ t. t < table.old.draft.rules.count) at.now }
    ensures draft { table.new.draft ≡ table.old.draft }
    ensures grows { Grows table.old.values table.new.values }
    ensures value { Told (R.ring table.old.draft.ring) table.new.values result
        (right_at (symbols R.StarRing table.old.draft) shape at.now) }
{
    let mut sum = table.zero();
    let count = table.rules().count();
    for label in 0..count {
        sum = add_term(table, shape, at, label, sum)?;
    }
    Ok(sum)
}

/// Whether both sides are equal: the left side comes before the right one.
#[tactic(auto, using(crate::proofs::SideLemmas::left_stops, crate::proofs::SideLemmas::right_stops, crate::proofs::SideLemmas::both_told))]
pub(crate) fn are_equal<R: Spread>(
    table: &mut Table<R>,
    shape: Shape,
    at: &[u8],
) -> Result<bool, Stop>
    requires long { length at.now ≡ (form_of (law_of shape)).places }
    requires labels { All (λ t. t < table.old.draft.rules.count) at.now }
    ensures draft { table.new.draft ≡ table.old.draft }
    ensures value { Judges result (told_at (symbols R.StarRing table.old.draft) shape at.now) }
{
    let left = left(table, shape, at)?;
    let right = right(table, shape, at)?;
    Ok(table.same(left, right))
}
