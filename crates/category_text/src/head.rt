ghost use Rattle.std.specs.Prelude.{◌≡◌, ◌<◌, [], List, drop, length, ◌==◌, ◌&&◌, Some, None, IfOk, if◌then◌else◌};
ghost use Rattle.line_text.specs.Text.{words_of};
ghost use Rattle.category_text.specs.Named.{IsVersion};
ghost use Rattle.category_text.specs.Reading.{required, header_of, root_of, root_at, labels_of, front_of, head_of, version_of};
ghost use Rattle.category_text.specs.Answers.{Says, Tells, TellsLines, Told, judged_of, kept_of};

use crate::fault::{CategoryCause, CategoryFault, Refused, Stop, on_line, stop_on_line};
use crate::words::has_two_words;
use cyclo_core::Cyclo;
use fusion_rules::{LABEL_LIMIT, NameFault, Names};
use line_text::{Line, Lines, plain_number};
use poly_core::ROOT_LIMIT;
use std::alloc::Global;

/// What the first three lines say.
#[derive(Drop)]
pub(crate) struct Head {
    pub version: u8,
    pub ring: Cyclo,
    pub names: Names,
}

/// What the first two lines say, and the third.
#[derive(Drop)]
struct Front<'a> {
    version: u8,
    ring: Cyclo,
    line: Line<'a>,
}

/// Reads the first three lines.
#[tactic(auto, unfolding(crate::specs::Reading::head_of))]
pub(crate) fn read_head(alloc: Global, lines: &mut Lines) -> Result<Head, CategoryFault>
    ensures head { Told (λ head. (((head.version, head.ring), head.names), lines.new.ahead)) result (head_of lines.old) }
    ensures some { IfOk result (λ head. 0 < length head.names) }
    ensures version { IfOk result (λ head. IsVersion head.version) }
{
    let front = read_front(lines)?;
    let names = stop_on_line(front.line.number, read_labels(alloc, &front.line))?;
    Ok(Head {
        version: front.version,
        ring: front.ring,
        names,
    })
}

/// Reads the first two lines, and finds the third.
#[tactic(auto, unfolding(crate::specs::Reading::front_of))]
fn read_front<'a>(lines: &mut Lines<'a>) -> Result<Front<'a>, Refused>
    ensures front { TellsLines (λ front. ((front.version, front.ring), (front.line.number, (words_of front.line.text.now, lines.new.ahead)))) result (front_of lines.old) }
    ensures version { IfOk result (λ front. IsVersion front.version) }
{
    let line = required(lines, CategoryCause::Header)?;
    let version = on_line(line.number, read_header(&line))?;
    let line = required(lines, CategoryCause::Root)?;
    let ring = on_line(line.number, read_root(&line))?;
    let line = required(lines, CategoryCause::Labels)?;
    Ok(Front {
        version,
        ring,
        line,
    })
}

/// A line that has to come.
fn required<'a>(lines: &mut Lines<'a>, missing: CategoryCause) -> Result<Line<'a>, Refused>
    ensures line { TellsLines (λ line. (line.number, (words_of line.text.now, lines.new.ahead))) result (required missing lines.old.count lines.old.ahead) }
    ensures count { lines.new.count ≡ lines.old.count }
{
    match lines.next_line()? {
        Some(line) => Ok(line),
        None => Err(Refused {
            line: lines.count() + 1,
            cause: missing,
        }),
    }
}

/// The version.
fn read_header(line: &Line) -> Result<u8, CategoryCause>
    ensures header { result ≡ header_of (words_of line.now.text.now) }
    ensures version { IfOk result IsVersion }
{
    if !(has_two_words(line) && line.has_word(0, b"category")) {
        return Err(CategoryCause::Header);
    }
    version_of(line.word_or_empty(1))
}

/// The version that a word names.
fn version_of(word: &[u8]) -> Result<u8, CategoryCause>
    ensures told { result ≡ version_of word.now }
    ensures version { IfOk result IsVersion }
{
    if word == b"1".as_slice() {
        return Ok(1);
    }
    if word == b"2".as_slice() {
        return Ok(2);
    }
    Err(CategoryCause::Header)
}

fn read_root(line: &Line) -> Result<Cyclo, CategoryCause>
    ensures { result ≡ root_of (words_of line.now.text.now) }
{
    if !(has_two_words(line) && line.has_word(0, b"root")) {
        return Err(CategoryCause::Root);
    }
    accepted(plain_number(line.word_or_empty(1)))
}

/// The ring of an accepted root.
#[tactic(auto, using(crate::proofs::RootLemmas::large_root))]
fn accepted(root: Option<u32>) -> Result<Cyclo, CategoryCause>
    ensures { result ≡ root_at root }
{
    let Some(root) = root else {
        return Err(CategoryCause::Root);
    };
    if root > ROOT_LIMIT as u32 {
        return Err(CategoryCause::Root);
    }
    match Cyclo::new(root as u8) {
        Ok(ring) => Ok(ring),
        Err(_) => Err(CategoryCause::Root),
    }
}

fn read_labels(alloc: Global, line: &Line) -> Result<Names, Stop>
    ensures labels { Says (λ names. names) result (labels_of (words_of line.now.text.now)) }
    ensures some { IfOk result (λ names. 0 < length names) }
{
    if !line.has_word(0, b"labels") {
        return Err(Stop::Cause(CategoryCause::Labels));
    }
    let mut names = Names::new(alloc);
    let mut place = 1;
    while let Some(word) = line.word(place) {
        keep(&mut names, word)?;
        place += 1;
    }
    match judged(names, place - 1) {
        Ok(names) => Ok(names),
        Err(cause) => Err(Stop::Cause(cause)),
    }
}

/// Adds a name. Names that are too many or stand twice are told for the whole line.
fn keep(names: &mut Names, word: &[u8]) -> Result<(), Stop>
    ensures { Says (λ _. names.new) result (kept_of names.old word.now) }
{
    match names.add(word) {
        Ok(_) => Ok(()),
        Err(NameFault::Full) => Ok(()),
        Err(NameFault::Repeated) => Ok(()),
        Err(NameFault::Spelling) => Err(Stop::Cause(CategoryCause::Labels)),
        Err(NameFault::Memory) => Err(Stop::Memory),
    }
}

/// The names of so many words.
fn judged(names: Names, words: usize) -> Result<Names, CategoryCause>
    ensures judged { Tells (λ names. names) result (judged_of names words) }
    ensures some { IfOk result (λ names. 0 < length names) }
{
    if words == 0 {
        return Err(CategoryCause::Labels);
    }
    if words > LABEL_LIMIT {
        return Err(CategoryCause::Limit);
    }
    if (names.count() as usize) < words {
        return Err(CategoryCause::Repeated);
    }
    Ok(names)
}
