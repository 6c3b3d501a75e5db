//! Command lines.

ghost use Rattle.std.specs.Prelude.{◌≡◌, ◌≤◌, ◌<◌, length, map, true, IfOk};
ghost use Rattle.line_text.specs.Text.{word_in, words_of};
ghost use Rattle.line_text.specs.Plain.{plain_number_of};
ghost use Rattle.fusion_rules.specs.Names.{is_name, label_of};
ghost use Rattle.program_text.specs.declared.fault.ProgramCause.TheVariants.{Command as CommandCause, UnknownLabel, Unnamed};
ghost use Rattle.program_text.specs.declared.form.TheConstants.{COMMAND_LIMIT};
ghost use Rattle.program_text.specs.declared.line_form.LineForm.TheVariants.{MeasureAs};
ghost use Rattle.program_text.specs.Answers.{Says, so_far};
ghost use Rattle.program_text.specs.Grammar.{are_alike, braid_form, command_by, command_of_line, form_of, is_given, is_inside, measure_form, or_else, outcomes_by, outcomes_with, place_of, raise_form, sign_in, strands_behind, with_command};
ghost use Rattle.program_text.specs.Letters.{gap_in};
ghost use Rattle.program_text.specs.Program.{outcome_of, site_of};

use crate::draft::Draft;
use crate::fault::{ProgramCause, Stop, unless};
use crate::form::COMMAND_LIMIT;
use crate::line_form::LineForm;
use crate::name::{is_name, own_name};
use crate::plan::{Command, Outcome, Sign, Site};
use crate::push::push;
use crate::words::has_words;
use fusion_rules::Names;
use line_text::{Line, plain_number};
use std::alloc::{AllocError, Global};

/// Adds the command of a line to the current site.
#[tactic(auto, unfolding(crate::specs::Grammar::command_of_line))]
pub(crate) fn read_command(
    alloc: Global,
    names: &Names,
    version: u8,
    line: &Line,
    draft: Draft,
) -> Result<Draft, Stop>
    ensures { Says so_far result (command_of_line names.now version (so_far draft) (words_of line.now.text.now)) }
{
    let form = line_form(version, line)?;
    let gap = gap_number(line.word_or_empty(1))?;
    unless(is_inside(&draft.current, gap), ProgramCause::Gap)?;
    let command = command_by(names, &draft, line, gap as u8, form)?;
    unless(draft.commands < COMMAND_LIMIT as u32, ProgramCause::Limit)?;
    Ok(add_command(alloc, line, form, command, draft)?)
}

/// The form of a command line.
fn line_form(version: u8, line: &Line) -> Result<LineForm, ProgramCause>
    ensures { result ≡ form_of version (words_of line.now.text.now) }
{
    if line.has_word(0, b"braid") {
        let sign = sign_in(line.word_or_empty(2))?;
        return braid_form(version, line, sign);
    }
    if line.has_word(0, b"raise") {
        return raise_form(line);
    }
    if line.has_word(0, b"measure") {
        return measure_form(version, line);
    }
    Err(ProgramCause::Command)
}

fn sign_in(word: &[u8]) -> Result<Sign, ProgramCause>
    ensures { result ≡ sign_in word.now }
{
    if word == b"+".as_slice() {
        return Ok(Sign::Plus);
    }
    if word == b"-".as_slice() {
        return Ok(Sign::Minus);
    }
    Err(ProgramCause::Command)
}

fn braid_form(version: u8, line: &Line, sign: Sign) -> Result<LineForm, ProgramCause>
    ensures { result ≡ braid_form version (words_of line.now.text.now) sign }
{
    if has_words(line, 3) {
        return Ok(LineForm::Braid(sign));
    }
    if 2 <= version && has_words(line, 6) && line.has_word(3, b"when") {
        return Ok(LineForm::BraidWhen(sign));
    }
    Err(ProgramCause::Command)
}

fn raise_form(line: &Line) -> Result<LineForm, ProgramCause>
    ensures { result ≡ raise_form (words_of line.now.text.now) }
{
    if has_words(line, 2) {
        return Ok(LineForm::Raise);
    }
    Err(ProgramCause::Command)
}

fn measure_form(version: u8, line: &Line) -> Result<LineForm, ProgramCause>
    ensures { result ≡ measure_form version (words_of line.now.text.now) }
{
    if has_words(line, 2) {
        return Ok(LineForm::Measure);
    }
    if 2 <= version && has_words(line, 4) && line.has_word(2, b"as") {
        return Ok(LineForm::MeasureAs);
    }
    Err(ProgramCause::Command)
}

fn gap_number(word: &[u8]) -> Result<u32, ProgramCause>
    ensures { result ≡ or_else (plain_number_of word.now) CommandCause }
{
    plain_number(word).ok_or(ProgramCause::Command)
}

fn is_inside(site: &Site, gap: u32) -> bool
    ensures { result ≡ is_inside (site_of site.now) gap }
{
    u32::from(site.first) <= gap && gap < u32::from(site.last)
}

/// The command of a line of this form at a gap.
fn command_by(
    names: &Names,
    draft: &Draft,
    line: &Line,
    gap: u8,
    form: LineForm,
) -> Result<Command, ProgramCause>
    requires some { 1 ≤ gap }
    requires inside { gap < length draft.now.strands.items }
    ensures command { result ≡ command_by names.now (so_far draft.now) (words_of line.now.text.now) gap form }
    ensures gap { IfOk result (λ command. gap_in command ≡ gap) }
    ensures name { IfOk result (λ _. form ≡ MeasureAs → is_name (word_in (words_of line.now.text.now) 3) ≡ true) }
{
    match form {
        LineForm::Braid(sign) => Ok(Command::Braid { gap, sign }),
        LineForm::Raise => Ok(Command::Raise { gap }),
        LineForm::Measure => Ok(Command::Measure { gap }),
        LineForm::MeasureAs => {
            let name = line.word_or_empty(3);
            unless(
                is_name(name) && !is_given(&draft.outcomes, name),
                ProgramCause::Name,
            )?;
            Ok(Command::Measure { gap })
        }
        LineForm::BraidWhen(sign) => {
            let place = place_of(&draft.outcomes, line.word_or_empty(4))?;
            let label = label_of(names, line.word_or_empty(5))?;
            unless(are_alike(&draft.strands, gap), ProgramCause::Unlike)?;
            Ok(Command::BraidWhen {
                gap,
                sign,
                place,
                label,
            })
        }
    }
}

fn is_given(outcomes: &[Outcome], name: &[u8]) -> bool
    ensures { result ≡ is_given (map outcome_of outcomes.now) name.now }
{
    for outcome in outcomes {
        if outcome.name.as_bytes() == name {
            return true;
        }
    }
    false
}

fn place_of(outcomes: &[Outcome], name: &[u8]) -> Result<u32, ProgramCause>
    ensures { result ≡ or_else (place_of (map outcome_of outcomes.now) name.now) Unnamed }
{
    for outcome in outcomes {
        if outcome.name.as_bytes() == name {
            return Ok(outcome.place);
        }
    }
    Err(ProgramCause::Unnamed)
}

fn label_of(names: &Names, word: &[u8]) -> Result<u8, ProgramCause>
    ensures { result ≡ or_else (label_of names.now word.now) UnknownLabel }
{
    names.number(word).ok_or(ProgramCause::UnknownLabel)
}

fn are_alike(strands: &[u8], gap: u8) -> bool
    requires some { 1 ≤ gap }
    requires inside { gap < length strands.now }
    ensures { result ≡ are_alike strands.now gap }
{
    strands[gap as usize - 1] == strands[gap as usize]
}

/// The draft with one command more.
fn add_command(
    alloc: Global,
    line: &Line,
    form: LineForm,
    command: Command,
    draft: Draft,
) -> Result<Draft, AllocError>
    requires room { draft.commands < COMMAND_LIMIT }
    requires some { 1 ≤ gap_in command }
    requires inside { gap_in command < length draft.strands.items }
    requires name { form ≡ MeasureAs → is_name (word_in (words_of line.now.text.now) 3) ≡ true }
    ensures { IfOk result (λ next. so_far next ≡ with_command (so_far draft) command (outcomes_with (so_far draft) (words_of line.now.text.now) form)) }
{
    let Draft {
        earlier,
        mut current,
        has_site,
        outcomes,
        mut strands,
        commands,
        measured,
    } = draft;
    let outcomes = with_outcome(alloc, outcomes, measured, line, form)?;
    push(&mut current.commands, command)?;
    exchange(&mut strands, command);
    Ok(Draft {
        earlier,
        current,
        has_site,
        outcomes,
        strands,
        commands: commands + 1,
        measured: measured + command.outcomes(),
    })
}

/// The outcomes with that of a line, where its form names one.
fn with_outcome(
    alloc: Global,
    outcomes: Vec<Outcome>,
    measured: u32,
    line: &Line,
    form: LineForm,
) -> Result<Vec<Outcome>, AllocError>
    requires name { form ≡ MeasureAs → is_name (word_in (words_of line.now.text.now) 3) ≡ true }
    ensures { IfOk result (λ named. map outcome_of named.items ≡ outcomes_by (map outcome_of outcomes.items) measured (words_of line.now.text.now) form) }
{
    let mut outcomes = outcomes;
    match form {
        LineForm::MeasureAs => {
            let name = own_name(alloc, line.word_or_empty(3))?;
            let outcome = Outcome {
                name,
                place: measured,
            };
            push(&mut outcomes, outcome)?;
        }
        LineForm::Braid(_) | LineForm::BraidWhen(_) | LineForm::Raise | LineForm::Measure => {}
    }
    Ok(outcomes)
}

/// Exchanges the strands at a braid.
fn exchange(strands: &mut [u8], command: Command)
    requires some { 1 ≤ gap_in command }
    requires inside { gap_in command < length strands.old }
    ensures strands { strands.new ≡ strands_behind strands.old command }
    ensures length { length strands.new ≡ length strands.old }
{
    match command {
        Command::Braid { gap, .. } => strands.swap(gap as usize - 1, gap as usize),
        Command::Raise { .. } | Command::Measure { .. } | Command::BraidWhen { .. } => {}
    }
}
