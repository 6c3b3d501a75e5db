//! What is proved of texts, of schedules and of the live words of every faithful engine.

ghost use Rattle.symbol_table.specs.Category.{symbols};
ghost use Rattle.run_laws.specs.Combs.{AreCombVectors, CombsCommuteFar, ExchangesLeaveSome};
ghost use Rattle.run_laws.specs.Meaning.{TextEnds};
ghost use Rattle.run_laws.specs.Programs.{ProgramsMayRun};
ghost use Rattle.run_laws.specs.Rows.{EndsInOrder, RowsInOrder, ScheduleRows, ScheduleWords, SortedEnds, TextRises, TextRows, TextWords, WordsAreAll};
ghost use Rattle.run_laws.specs.Schedules.{EverySchedule, ScheduleEnds, SchedulesMeasureEach, TextIsSchedule, TextMeasuresEach};

use crate::meaning::{Exact, Meaning};
use ring_laws::StarRing;
use symbol_table::Category;
use word_runs::Engine;

/// Text order is a legal schedule, whose turns are the letters of the whole text.
pub fn text_order()
    ensures { TextIsSchedule }
{}

/// The letters of a text measure each of its places once, and so do the turns of every legal schedule.
pub fn places()
    ensures text { TextMeasuresEach }
    ensures schedules { SchedulesMeasureEach }
{}

/// A well formed program may run: its sites are apart, and each outcome is there when it is tested.
pub fn programs()
    ensures { ProgramsMayRun }
{}

/// All words of so many labels stand in the order of lists of labels, each once.
pub fn words()
    ensures { WordsAreAll }
{}

/// Under every legal schedule of sites without a strand in common each word has the vector that it has in the order of the
/// text. It rests on far commutation.
pub fn schedules<E: Meaning>(_engine: &E)
    ensures { EverySchedule (E.told _engine.now).strands (E.act _engine.now) (E.Good _engine.now) }
{}

/// At the end of a run each live word has a state that stands for its vector, and every word whose vector isn't zero is
/// live, each once: in the order of the text, and under every legal schedule the same.
pub fn live_words<E: Meaning>(_engine: &E)
    ensures text { TextEnds (E.told _engine.now) (E.count _engine.now) (E.act _engine.now) (E.Good _engine.now) (E.nought _engine.now) (E.Stands _engine.now) }
    ensures schedules { ScheduleEnds (E.told _engine.now) (E.count _engine.now) (E.act _engine.now) (E.Good _engine.now) (E.nought _engine.now) (E.Stands _engine.now) }
{}

/// Live words that are sorted by their labels stand in the order of lists of labels; and where their vectors aren't zero,
/// they are a filter of all words in order.
pub fn order<E: Meaning>(_engine: &E)
    ensures sorted { SortedEnds (E.count _engine.now) (E.act _engine.now) (E.Good _engine.now) (E.nought _engine.now) (E.Stands _engine.now) }
    ensures living { EndsInOrder (E.count _engine.now) (E.act _engine.now) (E.Good _engine.now) (E.nought _engine.now) (E.Stands _engine.now) }
{}

/// Where the engine makes nothing zero, the live words in order are exactly the words whose vector isn't zero: in the order
/// of the text, and under every legal schedule the same.
pub fn living<E: Exact>(_engine: &E)
    ensures text { TextWords (E.told _engine.now) (E.count _engine.now) (E.act _engine.now) (E.Good _engine.now) (E.nought _engine.now) (E.Stands _engine.now) }
    ensures schedules { ScheduleWords (E.told _engine.now) (E.count _engine.now) (E.act _engine.now) (E.Good _engine.now) (E.nought _engine.now) (E.Stands _engine.now) }
{}

/// Where the parts of a state come in label order, the turns of a text make live words in the order of lists of labels.
pub fn made_in_order<E: Engine>(_engine: &E)
    ensures { TextRises (E.told _engine.now) }
{}

/// The rows of a run, its live words in order whose weight isn't zero, are those of the plan: in the order of the text, and
/// under every legal schedule the same.
pub fn rows<E: Meaning>(_engine: &E)
    ensures in_order { RowsInOrder (E.count _engine.now) (E.act _engine.now) (E.Good _engine.now) (E.nought _engine.now) (E.Stands _engine.now) (E.weigh _engine.now) (E.weight _engine.now) (E.zero _engine.now) }
    ensures text { TextRows (E.told _engine.now) (E.count _engine.now) (E.act _engine.now) (E.Good _engine.now) (E.Stands _engine.now) (E.weigh _engine.now) (E.weight _engine.now) (E.zero _engine.now) }
    ensures schedules { ScheduleRows (E.told _engine.now) (E.count _engine.now) (E.act _engine.now) (E.Good _engine.now) (E.Stands _engine.now) (E.weigh _engine.now) (E.weight _engine.now) (E.zero _engine.now) }
{}

/// What an engine whose states stand for comb vectors needs of these alone: operators keep them and make zero of zero, and
/// zero has the weight zero; far commutation, where it holds of lists of strands, is one of comb vectors; and an exchange
/// that can be undone makes nothing zero. The rows that follow from the words' weights are the rows of the plan.
///
/// It rests on the laws of the ring, and on no equation of the category.
pub fn comb_vectors<R: StarRing>(_category: &Category<R>)
    ensures vectors { AreCombVectors (symbols R.StarRing _category.now) }
    ensures far { CombsCommuteFar (symbols R.StarRing _category.now) }
    ensures some { ExchangesLeaveSome (symbols R.StarRing _category.now) }
{}
