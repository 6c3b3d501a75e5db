// The top call.
ghost use Rattle.std.specs.Prelude.{◌≡◌, ◌≢◌, ◌⊎◌, ◌≤◌, ◌↔◌, ℕ, List, map, Some, None, MatchOption, string_bytes};
ghost use Rattle.io_ports.specs.Ports.{Files, Rose};
ghost use Rattle.anyon_app.specs.Replies.{Reply};
ghost use Rattle.anyon_app.specs.Work.{reply_of, Decides};
ghost use Rattle.anyon_app.specs.Stages.{Worked};
ghost use Rattle.anyon_app.specs.Headline.{command_in, command_work, four_words, one_word, three_words, two_words, work_of, IsAnswer, HasReply, IsGiven, IsBegun, HasFailed, NoFaults, IsPut};

use crate::check::check;
use crate::comb::comb;
use crate::format::format;
use crate::linked::linked;
use crate::make::make;
use crate::new_categories::{galois, mirror, product};
use crate::run::{run, run_by};
use crate::trees::{trees, trees_by};
use crate::upgrade::upgrade;
use crate::{Status, Stop};
use io_ports::{Shelf, Sink, put_all};
use std::alloc::Global;

/// Does what the words of the command line say, the words after the program's name.
///
/// - `check CAT` reads the category text of this name and judges its rules and laws; `format CAT` writes its canonical
///   text without judging it.
/// - `upgrade CAT MARKS` brings a category of version 1 to version 2 by its twists and loop values. `galois CAT K`,
///   `mirror CAT` and `product CAT CAT` judge the categories and write the canonical text of a new one.
/// - `run CAT PROG [SCHED]` judges a category, reads a program over it, and writes the total and the rows of the program
///   on trees, by the schedule or in the order of the text; `trees` with the same words writes the final states; `comb CAT
///   PROG` runs on left-combed paths.
/// - `linked CAT PROG PROG MOVES` tells whether the moves lead from one program to the other. `make N` makes a category, a
///   program and a schedule from a number and writes a summary of their run.
///
/// A text has at most 4,194,304 bytes. All other words are `Usage`. Whatever is written is built whole before its first
/// byte is written.
///
/// - `Done`, `Refused`, `Limit`: the whole reply was written.
/// - `Usage`: exactly where the words have no listed form. Nothing is written.
/// - `ReadFault`: only where the shelf's count for the name of a text that was reached rose in this
///   call, or stands at its last value. Nothing is written.
/// - `WriteFault`: only where the sink's count rose in this call, or stands at its last value. A
///   prefix of the reply was written.
/// - `NoMemory`: nothing is written.
pub fn anyon<S: Shelf, W: Sink>(
    alloc: Global,
    words: &[String],
    shelf: &mut S,
    sink: &mut W,
) -> Status
    ensures usage { (result ≡ Status.Usage) ↔ (command_in (map string_bytes words.now) ≡ None) }

    // The status and the bytes are the reply's.
    ensures answered { IsAnswer result → (known : Files) → Decides (S.files shelf.old) (work_of words.now) known
        → HasReply (work_of words.now) known (IsGiven result (W.taken sink.old) (W.taken sink.new)) }

    ensures unread { result ≡ Status.ReadFault
        → HasFailed (S.files shelf.old) (S.faults shelf.old) (S.faults shelf.new) (work_of words.now) }
    ensures unread_kept { result ≡ Status.ReadFault → W.taken sink.new ≡ W.taken sink.old }

    ensures unwritten { result ≡ Status.WriteFault → Rose (W.faults sink.old) (W.faults sink.new) }
    ensures unwritten_reply { result ≡ Status.WriteFault → (known : Files) → Decides (S.files shelf.old) (work_of words.now) known
        → HasReply (work_of words.now) known (IsBegun (W.taken sink.old) (W.taken sink.new)) }
    ensures unwritten_form { result ≡ Status.WriteFault → command_in (map string_bytes words.now) ≢ None }

    // No call changes the texts of the shelf.
    ensures kept { S.files shelf.new ≡ S.files shelf.old }

    ensures no_memory { result ≡ Status.NoMemory → W.taken sink.new ≡ W.taken sink.old }

    // Where nothing fails the reply is given.
    ensures complete { (known : Files) → S.files shelf.old ≡ Some known
        → NoFaults (work_of words.now) known (S.faults shelf.old) (S.faults shelf.new) (W.faults sink.old) (W.faults sink.new)
        → (reply : Reply) → reply_of (work_of words.now) known ≡ Some reply
        → IsGiven result (W.taken sink.old) (W.taken sink.new) reply ⊎ (result ≡ Status.NoMemory) }
{
    let Some(command) = command_of(words) else {
        return Status::Usage;
    };
    match work(alloc, command, shelf) {
        Ok(report) => put(sink, Status::Done, &report),
        Err(Stop::RefusalLine(line)) => put(sink, Status::Refused, &line),
        Err(Stop::LimitLine(line)) => put(sink, Status::Limit, &line),
        Err(Stop::Unread) => Status::ReadFault,
        Err(Stop::Memory) => Status::NoMemory,
    }
}

// What the words ask for.
#[derive(Clone, Copy)]
enum Command<'a> {
    Check(&'a str),
    Format(&'a str),
    Mirror(&'a str),
    Make(&'a str),
    Upgrade(&'a str, &'a str),
    Galois(&'a str, &'a str),
    Product(&'a str, &'a str),
    Comb(&'a str, &'a str),
    Run(&'a str, &'a str),
    Trees(&'a str, &'a str),
    RunBy(&'a str, &'a str, &'a str),
    TreesBy(&'a str, &'a str, &'a str),
    Linked(&'a str, &'a str, &'a str, &'a str),
}

#[tactic(auto, unfolding(crate::specs::Headline::command_in))]
fn command_of(words: &[String]) -> Option<Command<'_>>
    ensures { MatchOption result (command_in (map string_bytes words.now) ≡ None)
        (λ command. command_in (map string_bytes words.now) ≡ Some (command_work command)) }
{
    match words {
        [command, first] => one_word(command.as_str(), first.as_str()),
        [command, first, second] => { two_words(command.as_str(), first.as_str(), second.as_str()) }
        [command, category, program, schedule] => {
            let (category, program) = (category.as_str(), program.as_str());
            three_words(command.as_str(), category, program, schedule.as_str())
        }
        [command, category, first, second, moves] => {
            let (category, first) = (category.as_str(), first.as_str());
            four_words(
                command.as_str(),
                category,
                first,
                second.as_str(),
                moves.as_str(),
            )
        }
        _ => None,
    }
}

// What a command with one further word asks for.
#[tactic(auto, unfolding(crate::specs::Headline::one_word, crate::specs::Headline::command_work))]
fn one_word<'a>(command: &str, first: &'a str) -> Option<Command<'a>>
    ensures { MatchOption result (one_word command.now first.now ≡ None)
        (λ command_is. one_word command.now first.now ≡ Some (command_work command_is)) }
{
    match command {
        "check" => Some(Command::Check(first)),
        "format" => Some(Command::Format(first)),
        "mirror" => Some(Command::Mirror(first)),
        "make" => Some(Command::Make(first)),
        _ => None,
    }
}

// The same with two further words.
#[tactic(auto, unfolding(crate::specs::Headline::two_words, crate::specs::Headline::command_work))]
fn two_words<'a>(command: &str, first: &'a str, second: &'a str) -> Option<Command<'a>>
    ensures { MatchOption result (two_words command.now first.now second.now ≡ None)
        (λ command_is. two_words command.now first.now second.now ≡ Some (command_work command_is)) }
{
    match command {
        "upgrade" => Some(Command::Upgrade(first, second)),
        "galois" => Some(Command::Galois(first, second)),
        "product" => Some(Command::Product(first, second)),
        "comb" => Some(Command::Comb(first, second)),
        "run" => Some(Command::Run(first, second)),
        "trees" => Some(Command::Trees(first, second)),
        _ => None,
    }
}

// The same with three further words.
#[tactic(auto, unfolding(crate::specs::Headline::three_words, crate::specs::Headline::command_work))]
fn three_words<'a>(
    command: &str,
    category: &'a str,
    program: &'a str,
    schedule: &'a str,
) -> Option<Command<'a>>
    ensures { MatchOption result (three_words command.now category.now program.now schedule.now ≡ None)
        (λ command_is. three_words command.now category.now program.now schedule.now ≡ Some (command_work command_is)) }
{
    match command {
        "run" => Some(Command::RunBy(category, program, schedule)),
        "trees" => Some(Command::TreesBy(category, program, schedule)),
        _ => None,
    }
}

// The same with four further words.
#[tactic(auto, unfolding(crate::specs::Headline::four_words, crate::specs::Headline::command_work))]
fn four_words<'a>(
    command: &str,
    category: &'a str,
    first: &'a str,
    second: &'a str,
    moves: &'a str,
) -> Option<Command<'a>>
    ensures { MatchOption result (four_words command.now category.now first.now second.now moves.now ≡ None)
        (λ command_is. four_words command.now category.now first.now second.now moves.now ≡ Some (command_work command_is)) }
{
    match command {
        "linked" => Some(Command::Linked(category, first, second, moves)),
        _ => None,
    }
}

#[tactic(auto, unfolding(crate::specs::Headline::command_work))]
fn work<S: Shelf>(alloc: Global, command: Command<'_>, shelf: &mut S) -> Result<Vec<u8>, Stop>
    ensures { Worked S.files S.faults shelf.old shelf.new (command_work command.entry) result }
{
    match command {
        Command::Check(category) => check(alloc, shelf, category),
        Command::Format(category) => format(alloc, shelf, category),
        Command::Mirror(category) => mirror(alloc, shelf, category),
        Command::Make(number) => make(alloc, number),
        Command::Upgrade(category, marks) => upgrade(alloc, shelf, category, marks),
        Command::Galois(category, number) => galois(alloc, shelf, category, number),
        Command::Product(first, second) => product(alloc, shelf, first, second),
        Command::Comb(category, program) => comb(alloc, shelf, category, program),
        Command::Run(category, program) => run(alloc, shelf, category, program),
        Command::Trees(category, program) => trees(alloc, shelf, category, program),
        Command::RunBy(category, program, schedule) => {
            run_by(alloc, shelf, category, program, schedule)
        }
        Command::Linked(category, first, second, moves) => {
            linked(alloc, shelf, category, first, second, moves)
        }
        Command::TreesBy(category, program, schedule) => {
            trees_by(alloc, shelf, category, program, schedule)
        }
    }
}

// Writes all of it and answers the status, unless the sink fails.
fn put<W: Sink>(sink: &mut W, status: Status, bytes: &[u8]) -> Status
    requires { IsAnswer status }
    ensures { IsPut (W.taken sink.old) (W.taken sink.new) (W.faults sink.old) (W.faults sink.new) status bytes.now result }
{
    match put_all(sink, bytes) {
        Ok(()) => status,
        Err(_) => Status::WriteFault,
    }
}
