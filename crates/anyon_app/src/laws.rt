// What follows from the clauses of the top call, and from the definitions of its replies.
ghost use Rattle.std.specs.Prelude.{◌≡◌, ◌≢◌, ℕ, IsSome, List, length};
ghost use Rattle.category_text.specs.Named.{named_draft};
ghost use Rattle.io_ports.specs.Memory.{files_of};
ghost use Rattle.io_ports.specs.Ports.{Rose};
ghost use Rattle.anyon_app.specs.Work.{WantsNone, reply_of};
ghost use Rattle.anyon_app.specs.Headline.{HasReply, IsAnswer, IsBegun, IsGiven, work_of};
ghost use Rattle.anyon_app.specs.Comb.{comb_work};
ghost use Rattle.anyon_app.specs.Laws.{AcceptedIsLawful, FinishedIsLawful, FormatSettles, FormattedAlike, LawfulIsAccepted, LinkedHaveRows, MakesRows, ReportAlike, ReportsRows};
ghost use Rattle.anyon_app.specs.Make.{make_work};
ghost use Rattle.anyon_app.specs.Run.{run_by_work, run_work};
ghost use Rattle.anyon_app.specs.Trees.{trees_by_work, trees_work};

use crate::{Status, anyon};
use category_maker::{made_categories, made_programs};
use category_text::canonical_texts;
use cyclo_core::Cyclo;
use fusion_rules::Names;
use io_ports::{Sink, SureShelf};
use move_laws::laws::linked;
use program_text::program_texts;
use std::alloc::Global;
use symbol_table::Category;
use word_moves::linked_programs;

/// The top call over a shelf whose reads fail only where there is no such name, and on which each
/// text that is reached stands: no read fault comes, and the reply is that over the texts of the shelf.
pub fn over_sure_shelf<W: Sink>(
    alloc: Global,
    words: &[String],
    shelf: &mut SureShelf,
    sink: &mut W,
) -> Status
    requires { IsSome (reply_of (work_of words.now) (files_of shelf.old.files)) }
    ensures read { result ≢ Status.ReadFault }

    // The status and the bytes are the reply's.
    ensures answered { IsAnswer result → HasReply (work_of words.now) (files_of shelf.old.files) (IsGiven result (W.taken sink.old) (W.taken sink.new)) }

    ensures unwritten { result ≡ Status.WriteFault → Rose (W.faults sink.old) (W.faults sink.new) }
    ensures unwritten_reply { result ≡ Status.WriteFault → HasReply (work_of words.now) (files_of shelf.old.files) (IsBegun (W.taken sink.old) (W.taken sink.new)) }
    ensures no_memory { result ≡ Status.NoMemory → W.taken sink.new ≡ W.taken sink.old }
    ensures kept { files_of shelf.new.files ≡ files_of shelf.old.files }
{
    anyon(alloc, words, shelf, sink)
}

/// What `check`, `comb`, `run`, `trees` and `format` say of categories, over the bytes of their texts.
///
/// What `check` accepts, and whatever `comb`, `run` and `trees` finish, has a category all of whose equations are true; a
/// category all of whose equations are true and all of whose items fit is accepted. What `format` wrote is formatted to
/// itself, as far as it isn't too long to be read, and texts that are formatted alike say the same category.
pub fn category_replies()
    ensures accepted { AcceptedIsLawful }
    ensures complete { LawfulIsAccepted }
    ensures finished_comb { FinishedIsLawful comb_work }
    ensures finished_run { FinishedIsLawful run_work }
    ensures finished_run_by { (schedule : List ℕ) → FinishedIsLawful (λ category program. run_by_work category program schedule) }
    ensures finished_trees { FinishedIsLawful trees_work }
    ensures finished_trees_by { (schedule : List ℕ) → FinishedIsLawful (λ category program. trees_by_work category program schedule) }
    ensures settled { FormatSettles }
    ensures alike { FormattedAlike }
{
    canonical_texts();
}

/// What `run` and `comb` write, over the bytes of their texts: the rows of the program by the comb operators in the order
/// of the text, whatever the schedule. So where two of them finish on the same category and program they write the same:
/// two schedules, a schedule and the order of the text, trees and left-combed paths.
pub fn run_replies()
    ensures run { ReportsRows run_work }
    ensures run_by { (schedule : List ℕ) → ReportsRows (λ category program. run_by_work category program schedule) }
    ensures comb { ReportsRows comb_work }
    ensures schedules { (first second : List ℕ) → ReportAlike (λ category program. run_by_work category program first) (λ category program. run_by_work category program second) }
    ensures text { (schedule : List ℕ) → ReportAlike run_work (λ category program. run_by_work category program schedule) }
    ensures engines { ReportAlike run_work comb_work }
{}

/// What `linked` says of a category with these names, over the bytes of its texts: programs that it calls linked have the
/// same total and the same rows, so `run` writes the same of both where it finishes.
///
/// There are as many names as labels.
pub fn linked_replies(names: &Names, category: &Category<Cyclo>)
    requires { length names.now ≡ category.now.rules.count }
    ensures { LinkedHaveRows (named_draft names.now category.now) }
{
    program_texts();
    linked_programs();
    linked(category);
}

/// What `make` reports: a summary of the rows of the made program over a lawful category with the made symbols, by the comb
/// operators in the order of the text. No text of the shelf is wanted, so the reply is the same over every shelf.
pub fn make_replies()
    ensures rows { MakesRows }
    ensures alone { (word : List ℕ) → WantsNone (make_work word) }
{
    made_categories();
    made_programs();
}
