ghost use Rattle.std.specs.Prelude.{◌≡◌, ◌<◌, ◌≤◌, ◌+◌, All, IfSome, IfNone, OnOk, length, true};
ghost use Rattle.fusion_rules.specs.Fusion.{fuses};
ghost use Rattle.symbol_table.specs.Category.{symbols};
ghost use Rattle.symbol_table.specs.Laws.{form_of};
ghost use Rattle.law_events.specs.First.{all_within, event_at, event_of, first_over, within};
ghost use Rattle.law_events.specs.Sides.{first_of, verdict};
ghost use Rattle.shape_check.specs.Answers.{Passes};
ghost use Rattle.shape_check.specs.Shapes.{law_of};
ghost use Rattle.shape_check.specs.Walk.{Settles, Stops};

use crate::ShapeFault;
use crate::shape::Shape;
use crate::sides::are_equal;
use crate::table::Table;
use arrayvec::ArrayVec;
use fusion_rules::Rules;
use kept_values::{Spread, Stop};
use symbol_table::{Event, Kind, Labels, Triple};

/// The labels of a part of an index, nine at most.
type Part = ArrayVec<u8, 9>;

fn is_within(triple: &Triple, places: usize) -> bool
    ensures { result ≡ within places triple.now }
{
    usize::from(triple.a) < places
        && usize::from(triple.b) < places
        && usize::from(triple.c) < places
}

/// From which triple on the triples don't lie within the labels, where all that do, from a triple on, fuse: none
/// where one of them doesn't.
#[tactic(auto, using(crate::proofs::WalkLemmas::settled_more, crate::proofs::WalkLemmas::stopped_here, crate::proofs::WalkLemmas::not_all_within, crate::proofs::WalkLemmas::settles_end))]
fn settled(rules: &Rules, index: &[u8], triples: &[Triple], from: usize) -> Option<usize>
    requires { All (λ t. t < rules.now.count) index.now }
    ensures settles { IfSome result (Settles (fuses rules.now) index.now triples.now from) }
    ensures all { IfSome result (λ to. all_within (length index.now) triples.now ≡ true → length triples.now ≤ to) }
    ensures stops { IfNone result (Stops (fuses rules.now) index.now triples.now from) }
{
    for k in from..triples.len() {
        let triple = &triples[k];
        if !is_within(triple, index.len()) {
            return Some(k);
        }
        if !rules.allows(
            index[usize::from(triple.a)],
            index[usize::from(triple.b)],
            index[usize::from(triple.c)],
        ) {
            return None;
        }
    }
    Some(triples.len())
}

/// The same labels.
fn labels(index: &[u8]) -> Labels
    requires { length index.now ≤ 9 }
    ensures { result ≡ index.now }
{
    let mut labels = Labels::new();
    for t in index {
        labels = labels.with(*t);
    }
    labels
}

/// What is wrong at an index of a shape.
fn fault(kind: Kind, shape: Shape, index: &[u8]) -> ShapeFault
    requires { length index.now ≤ 9 }
    ensures { result ≡ ShapeFault.Law (record { kind = kind; law = law_of shape; index = index.now }) }
{
    ShapeFault::Law(Event {
        kind,
        law: shape.law(),
        index: labels(index),
    })
}

/// What the law of a shape tells at an index.
#[tactic(auto, using(crate::proofs::AnswerLemmas::none_told, crate::proofs::AnswerLemmas::some_told))]
fn judge<R: Spread>(table: &mut Table<R>, shape: Shape, index: &[u8]) -> Result<(), ShapeFault>
    requires long { length index.now ≡ (form_of (law_of shape)).places }
    requires few { length index.now ≤ 9 }
    requires labels { All (λ t. t < table.old.draft.rules.count) index.now }
    ensures draft { table.new.draft ≡ table.old.draft }
    ensures told { Passes result (event_of (law_of shape) index.now
        (verdict (symbols R.StarRing table.old.draft) (law_of shape) index.now)) }
{
    match are_equal(table, shape, index) {
        Ok(true) => Ok(()),
        Ok(false) => Err(fault(Kind::Fails, shape, index)),
        Err(Stop::TooLarge) => Err(fault(Kind::Overflow, shape, index)),
        Err(Stop::Memory) => Err(ShapeFault::Memory),
    }
}

/// Whether nothing is wrong at the indices that go on from some labels with so many more: else the first event.
///
/// The triples before a place are settled: those that follow decide. Labels at which a triple doesn't fuse aren't
/// gone on from.
#[tactic(auto, using(law_events::proofs::Left::first_more, crate::proofs::WalkLemmas::none_further, crate::proofs::WalkLemmas::whole_event, crate::proofs::WalkLemmas::settles_with, crate::proofs::WalkLemmas::settles_on))]
fn walk<R: Spread>(
    table: &mut Table<R>,
    shape: Shape,
    triples: &[Triple],
    from: usize,
    more: u8,
    index: &mut Part,
) -> Result<(), ShapeFault>
    requires triples { triples.now ≡ (form_of (law_of shape)).triples }
    requires long { length index.old.items + more ≡ (form_of (law_of shape)).places }
    requires few { length index.old.items + more ≤ 9 }
    requires labels { All (λ t. t < table.old.draft.rules.count) index.old.items }
    requires settled { Settles (fuses table.old.draft.rules) index.old.items triples.now 0 from }
    ensures draft { table.new.draft ≡ table.old.draft }
    ensures same { OnOk result (index.new.items ≡ index.old.items) }
    ensures told { let c = symbols R.StarRing table.old.draft in
        Passes result (first_over c.count (event_at c.fuse (law_of shape) (verdict c (law_of shape))) more index.old.items) }
{
    let Some(from) = settled(table.rules(), index.as_slice(), triples, from) else {
        return Ok(());
    };
    if more == 0 {
        return judge(table, shape, index.as_slice());
    }
    let count = table.rules().count();
    for t in 0..count {
        index.push(t);
        walk(table, shape, triples, from, more - 1, index)?;
        index.pop();
    }
    Ok(())
}

/// Whether the law of a shape holds at every index: else its first event.
pub(crate) fn check_shape<R: Spread>(table: &mut Table<R>, shape: Shape) -> Result<(), ShapeFault>
    ensures draft { table.new.draft ≡ table.old.draft }
    ensures told { Passes result (first_of (symbols R.StarRing table.old.draft) (law_of shape)) }
{
    let law = shape.law();
    walk(
        table,
        shape,
        law.triples(),
        0,
        law.places(),
        &mut Part::new(),
    )
}
