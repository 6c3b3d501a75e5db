// The lines of refusals and limits.
ghost use Rattle.std.specs.Prelude.{◌≡◌, ◌∷◌, [], IfOk, codes, map, slice_index_or, string_bytes};
ghost use Rattle.anyon_app.specs.Stages.{Gives, StopsWith};
ghost use Rattle.anyon_app.specs.Verdicts.{unless};
ghost use Rattle.anyon_app.specs.Refusals.{category_line, comb_start_line, event_line, event_words, exponent_line, kind_word, marks_line, moves_line, not_linked, number_line, place_line, product_labels_line, product_roots_line, product_version_line, program_line, refused_line, rules_line, schedule_line, stop_line, symbol_word, too_long, turn_line, verdict_line, version_line};
ghost use Rattle.anyon_app.specs.Lines.{line_of, refusal_of};
ghost use Rattle.outcome_report.specs.Labels.{label_names};

use crate::causes::{category_words, line_words, marks_words, moves_words};
use crate::stop::{Stop, limit, refusal};
use crate::texts::Kind;
use category_images::{Place, Symbol};
use category_text::CategoryCause;
use fusion_rules::{Names, RulesFault};
use itoa::Buffer;
use marks_text::MarksCause;
use outcome_report::write_labels;
use program_text::{ProgramCause, Site};
use site_schedule::ScheduleFault;
use std::alloc::{AllocError, Global};
use symbol_table::{Event, Kind as EventKind};
use word_moves::{MovesCause, Verdict};
use word_runs::RunStop;

/// The stop at a text that has too many bytes.
pub fn too_long(alloc: Global, kind: Kind) -> Stop
    ensures { StopsWith (too_long kind) result }
{
    refusal(alloc, &[kind.word(), "too long"])
}

/// The stop at a line of a text, with the words of its cause.
fn refused_line(alloc: Global, kind: Kind, line: u32, cause: &'static str) -> Stop
    ensures { StopsWith (refused_line kind line cause.now) result }
{
    let mut buffer = Buffer::new();
    let line = buffer.format(line);
    refusal(alloc, &[kind.word(), "line", line, cause])
}

/// The stop at a line of a category text.
pub fn category_line(alloc: Global, kind: Kind, line: u32, cause: CategoryCause) -> Stop
    ensures { StopsWith (category_line kind line cause) result }
{
    refused_line(alloc, kind, line, category_words(cause))
}

/// The stop at a line of a marks text.
pub fn marks_line(alloc: Global, line: u32, cause: MarksCause) -> Stop
    ensures { StopsWith (marks_line line cause) result }
{
    refused_line(alloc, Kind::Marks, line, marks_words(cause))
}

/// The stop at a category that has version 2 already.
pub fn version_line(alloc: Global) -> Stop
    ensures { StopsWith version_line result }
{
    refusal(alloc, &["version"])
}

/// The stop at a word that is no exponent of the root.
pub fn exponent_line(alloc: Global) -> Stop
    ensures { StopsWith exponent_line result }
{
    refusal(alloc, &["exponent"])
}

/// The stop at two categories of which one has version 1.
pub fn product_version_line(alloc: Global) -> Stop
    ensures { StopsWith product_version_line result }
{
    refusal(alloc, &["product", "version"])
}

/// The stop at two categories of different roots.
pub fn product_roots_line(alloc: Global, first: u8, second: u8) -> Stop
    ensures { StopsWith (product_roots_line first second) result }
{
    let mut first_digits = Buffer::new();
    let mut second_digits = Buffer::new();
    let first = first_digits.format(first);
    let second = second_digits.format(second);
    refusal(alloc, &["product", "roots", first, second])
}

/// The stop at two categories that have too many pairs of labels.
pub fn product_labels_line(alloc: Global, count: u32) -> Stop
    ensures { StopsWith (product_labels_line count) result }
{
    let mut buffer = Buffer::new();
    let count = buffer.format(count);
    refusal(alloc, &["product", "labels", count])
}

/// The word for a symbol of a new category.
fn symbol_word(symbol: Symbol) -> &'static str
    ensures { result.now ≡ symbol_word symbol }
{
    match symbol {
        Symbol::F => "f",
        Symbol::R => "r",
        Symbol::W => "w",
        Symbol::V => "v",
        Symbol::H => "h",
        Symbol::S => "s",
        Symbol::Twist => "twist",
        Symbol::Loop => "loop",
    }
}

/// The stop at a symbol that doesn't fit, of a category that a command makes.
pub fn place_line(alloc: Global, command: &str, names: &Names, place: &Place) -> Stop
    ensures { StopsWith (place_line command.now names.now place.now) result }
{
    match place_text(alloc, command, names, place) {
        Ok(line) => Stop::LimitLine(line),
        Err(_) => Stop::Memory,
    }
}

// The line of a symbol that doesn't fit.
fn place_text(
    alloc: Global,
    command: &str,
    names: &Names,
    place: &Place,
) -> Result<Vec<u8>, AllocError>
    ensures { IfOk result (λ line. line.items ≡ line_of (codes "limit" ∷ codes "overflow" ∷ command.now ∷ symbol_word place.now.symbol ∷ label_names names.now place.now.index)) }
{
    let mut line = Vec::from_slice(alloc, b"limit overflow ")?;
    line.extend_from_slice(command.as_bytes())?;
    line.push(b' ')?;
    line.extend_from_slice(symbol_word(place.symbol).as_bytes())?;
    write_labels(names, place.index.as_slice(), &mut line)?;
    line.push(b'\n')?;
    Ok(line)
}

/// The stop at a line of a program text.
pub fn program_line(alloc: Global, kind: Kind, line: u32, cause: ProgramCause) -> Stop
    ensures { StopsWith (program_line kind line cause) result }
{
    match cause {
        ProgramCause::Line(cause) => { refused_line(alloc, kind, line, line_words(cause)) }
        ProgramCause::Header => refused_line(alloc, kind, line, "header"),
        ProgramCause::Start => refused_line(alloc, kind, line, "start"),
        ProgramCause::UnknownLabel => refused_line(alloc, kind, line, "unknown label"),
        ProgramCause::Strands => refused_line(alloc, kind, line, "strands"),
        ProgramCause::Inadmissible(gap) => inadmissible_line(alloc, kind, line, gap),
        ProgramCause::Site => refused_line(alloc, kind, line, "site"),
        ProgramCause::Command => refused_line(alloc, kind, line, "command"),
        ProgramCause::Gap => refused_line(alloc, kind, line, "gap"),
        ProgramCause::Name => refused_line(alloc, kind, line, "name"),
        ProgramCause::Unnamed => refused_line(alloc, kind, line, "unnamed"),
        ProgramCause::Unlike => refused_line(alloc, kind, line, "unlike"),
        ProgramCause::Limit => refused_line(alloc, kind, line, "limit"),
    }
}

/// The stop at a start with a node that isn't admissible.
fn inadmissible_line(alloc: Global, kind: Kind, line: u32, gap: u8) -> Stop
    ensures { StopsWith (program_line kind line (ProgramCause.Inadmissible gap)) result }
{
    let mut line_digits = Buffer::new();
    let mut gap_digits = Buffer::new();
    let line = line_digits.format(line);
    let gap = gap_digits.format(gap);
    refusal(alloc, &[kind.word(), "line", line, "inadmissible", gap])
}

/// The stop at a turn of a schedule that can't be taken.
fn turn_line(alloc: Global, turn: u32, cause: &'static str) -> Stop
    ensures { StopsWith (turn_line turn cause.now) result }
{
    let mut buffer = Buffer::new();
    let turn = buffer.format(turn);
    refusal(alloc, &[Kind::Schedule.word(), "turn", turn, cause])
}

/// The name of a site, empty where there is none.
fn site_name(sites: &[Site], site: u8) -> &str
    ensures { result.now ≡ slice_index_or (map (λ s. string_bytes s.name) sites.now) site [] }
{
    match sites.get(site as usize) {
        Some(site) => site.name.as_str(),
        None => "",
    }
}

/// The stop at a schedule that ends before the site of this name has taken its commands.
fn unfinished_line(alloc: Global, name: &str) -> Stop
    ensures { StopsWith (refusal_of (kind_word Kind.Schedule ∷ codes "unfinished" ∷ name.now ∷ [])) result }
{
    refusal(alloc, &["schedule", "unfinished", name])
}

/// The stop at the first fault of a schedule text of a program with these sites.
pub fn schedule_line(alloc: Global, sites: &[Site], fault: ScheduleFault) -> Stop
    ensures line { StopsWith (schedule_line (map (λ s. string_bytes s.name) sites.now) fault) result }
    ensures memory { fault ≡ ScheduleFault.Memory → result ≡ Stop.Memory }
{
    match fault {
        ScheduleFault::Line(fault) => {
            refused_line(alloc, Kind::Schedule, fault.line, line_words(fault.cause))
        }
        ScheduleFault::Header { line } => refused_line(alloc, Kind::Schedule, line, "header"),
        ScheduleFault::UnknownSite { turn } => turn_line(alloc, turn, "unknown site"),
        ScheduleFault::TooMany { turn } => turn_line(alloc, turn, "too many"),
        ScheduleFault::Early { turn } => turn_line(alloc, turn, "early"),
        ScheduleFault::Unfinished { site } => unfinished_line(alloc, site_name(sites, site)),
        ScheduleFault::Memory => Stop::Memory,
    }
}

/// The stop at a line of a moves text.
pub fn moves_line(alloc: Global, line: u32, cause: MovesCause) -> Stop
    ensures { StopsWith (moves_line line cause) result }
{
    refused_line(alloc, Kind::Moves, line, moves_words(cause))
}

/// The stop at a verdict with a number in it.
fn not_linked(alloc: Global, what: &'static str, number: u32) -> Stop
    ensures { StopsWith (not_linked what.now number) result }
{
    let mut buffer = Buffer::new();
    let number = buffer.format(number);
    refusal(alloc, &["not linked", what, number])
}

/// The stop at programs that moves don't link; none where they do.
pub fn verdict_line(alloc: Global, verdict: Verdict) -> Result<(), Stop>
    ensures { Gives (λ _. tt) result (unless (verdict_line verdict)) }
{
    match verdict {
        Verdict::Linked => Ok(()),
        Verdict::StartDiffers => Err(refusal(alloc, &["not linked", "start"])),
        Verdict::NoMove { number } => Err(not_linked(alloc, "move", number)),
        Verdict::EndDiffers { place } => Err(not_linked(alloc, "end", place)),
    }
}

/// The stop at a number that nothing is made of.
pub fn number_line(alloc: Global) -> Stop
    ensures { StopsWith number_line result }
{
    refusal(alloc, &["number"])
}

/// The stop at a start that isn't left-combed.
pub fn comb_start_line(alloc: Global) -> Stop
    ensures { StopsWith comb_start_line result }
{
    refusal(alloc, &["comb", "start"])
}

/// The stop at fusion rules that aren't those of a fusion category.
pub fn rules_line(alloc: Global, names: &Names, fault: RulesFault) -> Stop
    ensures { StopsWith (rules_line names.now fault) result }
{
    let name = |label: u8| names.name_or_empty(label);
    match fault {
        RulesFault::NotCommutative(a, b, c) => {
            refusal(alloc, &["commutative", name(a), name(b), name(c)])
        }
        RulesFault::NotAssociative(a, b, c, d) => {
            refusal(alloc, &["associative", name(a), name(b), name(c), name(d)])
        }
        RulesFault::NoSingleDual(a) => refusal(alloc, &["dual", name(a)]),
    }
}

/// The stop at a law that isn't met, or an item of which doesn't fit.
#[tactic(auto, using(crate::proofs::LineLemmas::limit_line))]
pub fn event_line(alloc: Global, names: &Names, event: &Event) -> Stop
    ensures { StopsWith (event_line names.now event.now) result }
{
    match event.kind {
        EventKind::Fails => match event_text(alloc, b"refused", names, event) {
            Ok(line) => Stop::RefusalLine(line),
            Err(_) => Stop::Memory,
        },
        EventKind::Overflow => match event_text(alloc, b"limit overflow", names, event) {
            Ok(line) => Stop::LimitLine(line),
            Err(_) => Stop::Memory,
        },
    }
}

// The line of an event: words before it, the name of its law, and its index.
#[tactic(auto, using(crate::proofs::LineLemmas::begun_line))]
fn event_text(
    alloc: Global,
    begun: &[u8],
    names: &Names,
    event: &Event,
) -> Result<Vec<u8>, AllocError>
    ensures { IfOk result (λ line. line.items ≡ line_of (begun.now ∷ event_words names.now event.now)) }
{
    let mut line = Vec::from_slice(alloc, begun)?;
    line.push(b' ')?;
    line.extend_from_slice(event.law.name().as_bytes())?;
    write_labels(names, event.index.as_slice(), &mut line)?;
    line.push(b'\n')?;
    Ok(line)
}

/// The stop where the stated evaluation of a run stops.
pub fn stop_line(alloc: Global, stop: RunStop) -> Stop
    ensures { StopsWith (stop_line stop) result }
{
    let mut turn_digits = Buffer::new();
    let mut count_digits = Buffer::new();
    match stop {
        RunStop::Overflow { turn } => {
            limit(alloc, &["overflow", "turn", turn_digits.format(turn)])
        }
        RunStop::Branches { turn, count } => {
            let turn = turn_digits.format(turn);
            let count = count_digits.format(count);
            limit(alloc, &["branches", "turn", turn, "count", count])
        }
        RunStop::Wide { turn, entries } => {
            let turn = turn_digits.format(turn);
            let entries = count_digits.format(entries);
            limit(alloc, &["wide", "turn", turn, "entries", entries])
        }
    }
}
