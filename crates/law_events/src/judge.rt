ghost use Rattle.std.specs.Prelude.{◌≡◌, ◌<◌, ◌+◌, All, IsOk, OnOk, length};
ghost use Rattle.fusion_rules.specs.First.{Answers};
ghost use Rattle.fusion_rules.specs.Fusion.{Fusion, fuses};
ghost use Rattle.symbol_table.specs.Laws.{LawHolds, form_of};
ghost use Rattle.symbol_table.specs.Category.{symbols};
ghost use Rattle.law_events.specs.First.{event_at, event_of, first_over, fuse_known, within};
ghost use Rattle.law_events.specs.Sides.{first_of, verdict};
ghost use Rattle.law_events.specs.Verdicts.{Fits};
ghost use Rattle.law_events.specs.Judge.{Judges};

use fusion_rules::Rules;
use ring_laws::StarRing;
use symbol_table::{Draft, Event, Kind, Labels, Law, Triple};

fn is_within(triple: &Triple, places: usize) -> bool
    ensures { result ≡ within places triple.now }
{
    usize::from(triple.a) < places
        && usize::from(triple.b) < places
        && usize::from(triple.c) < places
}

/// Whether the labels fuse at each triple that lies within them.
fn fuse_known(rules: &Rules, index: &[u8], triples: &[Triple]) -> bool
    requires { All (λ t. t < rules.now.count) index.now }
    ensures { result ≡ fuse_known (fuses rules.now) index.now triples.now }
{
    for t in triples {
        if is_within(t, index.len())
            && !rules.allows(
                index[usize::from(t.a)],
                index[usize::from(t.b)],
                index[usize::from(t.c)],
            )
        {
            return false;
        }
    }
    true
}

/// How many labels there are.
fn count<R: StarRing>(draft: &Draft<R>) -> u8
    ensures { result ≡ draft.now.rules.count }
{
    draft.rules().count()
}

/// The event of a law at an admissible index.
fn event_at<R: StarRing, J: Fn(&[u8]) -> Option<Kind>>(
    draft: &Draft<R>,
    law: Law,
    judge: &J,
    index: Labels,
) -> Option<Event>
    requires judges { Judges J.Fn judge.now (symbols R.StarRing draft.now) law }
    requires long { length index ≡ (form_of law).places }
    requires labels { All (λ t. t < draft.now.rules.count) index }
    ensures { result ≡ event_of law index (verdict (symbols R.StarRing draft.now) law index) }
{
    let kind = judge(index.as_slice())?;
    Some(Event { kind, law, index })
}

/// The first event at an index that goes on with so many more labels. Parts of an index at which a triple
/// doesn't fuse aren't gone on with.
#[tactic(auto, using(crate::proofs::Left::next, crate::proofs::Left::stopped, crate::proofs::Left::whole_law, crate::proofs::Left::first_more))]
fn first_over<R: StarRing, J: Fn(&[u8]) -> Option<Kind>>(
    draft: &Draft<R>,
    law: Law,
    judge: &J,
    more: u8,
    index: Labels,
) -> Option<Event>
    requires judges { Judges J.Fn judge.now (symbols R.StarRing draft.now) law }
    requires long { length index + more ≡ (form_of law).places }
    requires labels { All (λ t. t < draft.now.rules.count) index }
    ensures { result ≡ first_over draft.now.rules.count (event_at (fuses draft.now.rules) law (verdict (symbols R.StarRing draft.now) law)) more index }
{
    if !fuse_known(draft.rules(), index.as_slice(), law.triples()) {
        return None;
    }
    if more == 0 {
        return event_at(draft, law, judge, index);
    }
    for t in 0..count(draft) {
        let found = first_over(draft, law, judge, more - 1, index.with(t));
        if found.is_some() {
            return found;
        }
    }
    None
}

/// The first event of a law.
fn first<R: StarRing, J: Fn(&[u8]) -> Option<Kind>>(
    draft: &Draft<R>,
    law: Law,
    judge: &J,
) -> Option<Event>
    requires judges { Judges J.Fn judge.now (symbols R.StarRing draft.now) law }
    ensures { result ≡ first_of (symbols R.StarRing draft.now) law }
{
    first_over(draft, law, judge, law.places(), Labels::new())
}

/// Whether a law holds at every index of a draft, by a function that tells its verdict at an index: else the first
/// event, in the order of the labels with the first label slowest.
///
/// `Fails` comes where all items fit and the equation is false, `Overflow` where an item doesn't fit. Takes no
/// memory.
pub fn check<R: StarRing, J: Fn(&[u8]) -> Option<Kind> + Drop>(
    draft: &Draft<R>,
    law: Law,
    judge: J,
) -> Result<(), Event>
    requires judges { Judges J.Fn judge (symbols R.StarRing draft.now) law }
    ensures event { Answers result (first_of (symbols R.StarRing draft.now) law) }
    ensures lawful { OnOk result (LawHolds (symbols R.StarRing draft.now) law) }
    ensures complete { LawHolds (symbols R.StarRing draft.now) law
        → Fits (symbols R.StarRing draft.now) law → IsOk result }
{
    // Says that the values are of the ring.
    draft.f_is_of_ring();
    match first(draft, law, &judge) {
        None => Ok(()),
        Some(event) => Err(event),
    }
}
