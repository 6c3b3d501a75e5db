//! What is proved of the outcomes of every faithful engine.

ghost use Rattle.outcome_rows.specs.Commands.{ProgramsAreRunnable};
ghost use Rattle.outcome_rows.specs.Outcomes.{EndsInOutcomes};
ghost use Rattle.outcome_rows.specs.WordEnds.{SortedInWordOrder};

use run_laws::Meaning;
use word_runs::Engine;

/// The commands of a well formed program may run in an engine with as many strands as its start.
pub fn programs<E: Engine>(_engine: &E)
    ensures { ProgramsAreRunnable (E.told _engine.now) }
{}

/// Where the parts of a state come in label order, the evaluation of a text ends in the outcomes of the plan, whatever the
/// engine does on the way.
pub fn outcomes<E: Meaning>(_engine: &E)
    ensures { EndsInOutcomes (E.told _engine.now) (E.count _engine.now) (E.act _engine.now) (E.Good _engine.now) (E.Stands _engine.now) (E.weigh _engine.now) (E.weight _engine.now) (E.zero _engine.now) }
{}

/// Live words at the end of a run that are sorted by their labels are those in the order of lists of labels: for each word in
/// that order, the one that has it, if there is one.
pub fn word_order<E: Meaning>(_engine: &E)
    ensures { SortedInWordOrder (E.count _engine.now) (E.act _engine.now) (E.Good _engine.now) (E.nought _engine.now) (E.Stands _engine.now) }
{}
