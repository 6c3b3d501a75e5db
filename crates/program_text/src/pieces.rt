//! The pieces of a tree's text.

ghost use Rattle.std.specs.Prelude.{◌≡◌, ◌<◌, ◌≤◌, ◌∷◌, [], length, drop, MatchOption, OnOk};
ghost use Rattle.std.specs.List.{flat_map};
ghost use Rattle.line_text.specs.Text.{words_of};
ghost use Rattle.program_text.specs.Answers.{Says};
ghost use Rattle.program_text.specs.Trees.{number_of, piece_of, pieces_onto, run_end, run_length, runs_of};

use crate::fault::{ProgramCause, Stop};
use crate::name::{all_name_bytes, is_name_byte};
use crate::piece::Piece;
use crate::push::push;
use fusion_rules::Names;
use line_text::Line;
use std::alloc::Global;

/// The pieces of all words of a line but the first.
pub(crate) fn read_pieces(alloc: Global, names: &Names, line: &Line) -> Result<Vec<Piece>, Stop>
    ensures { Says (λ pieces. pieces.items) result (pieces_onto names.now [] (flat_map runs_of (drop 1 (words_of line.now.text.now)))) }
{
    let mut pieces = Vec::new(alloc);
    let mut place = 1;
    while let Some(word) = line.word(place) {
        push_pieces(names, word, &mut pieces)?;
        place += 1;
    }
    Ok(pieces)
}

/// Appends the pieces of a word.
fn push_pieces(names: &Names, word: &[u8], pieces: &mut Vec<Piece>) -> Result<(), Stop>
    ensures { Says (λ _. pieces.new.items) result (pieces_onto names.now pieces.old.items (runs_of word.now)) }
{
    let mut rest = word;
    while let Some((run, after)) = first_run(rest) {
        let piece = piece_of(names, run)?;
        push(pieces, piece)?;
        rest = after;
    }
    Ok(())
}

/// The longest run of letters, digits and `_` in front, or else the first byte; and what stands behind it.
fn first_run(text: &[u8]) -> Option<(&[u8], &[u8])>
    ensures runs { MatchOption result (text.now ≡ []) (λ run. runs_of text.now ≡ run.0.now ∷ runs_of run.1.now) }
    ensures shorter { MatchOption result (text.now ≡ []) (λ run. length run.1.now < length text.now) }
{
    if text.is_empty() {
        return None;
    }
    Some(text.split_at(run_end(text)))
}

/// How long the run in front is.
fn run_end(text: &[u8]) -> usize
    requires { 0 < length text.now }
    ensures value { result ≡ run_end text.now }
    ensures some { 0 < result }
    ensures within { result ≤ length text.now }
{
    let length = run_length(text);
    if length == 0 { 1 } else { length }
}

/// How many letters, digits and `_` stand in front.
fn run_length(text: &[u8]) -> usize
    ensures value { result ≡ run_length text.now }
    ensures within { result ≤ length text.now }
{
    for (i, byte) in text.iter().enumerate() {
        if !is_name_byte(*byte) {
            return i;
        }
    }
    text.len()
}

/// The piece of a run.
fn piece_of(names: &Names, run: &[u8]) -> Result<Piece, ProgramCause>
    ensures { result ≡ piece_of names.now run.now }
{
    if run == b"(".as_slice() {
        return Ok(Piece::Open);
    }
    if run == b")".as_slice() {
        return Ok(Piece::Close);
    }
    if run == b":".as_slice() {
        return Ok(Piece::Colon);
    }
    if all_name_bytes(run) {
        return Ok(Piece::Label(number_of(names, run)));
    }
    Err(ProgramCause::Start)
}

/// The label of a run, or the number of all names where it isn't named.
fn number_of(names: &Names, run: &[u8]) -> u8
    ensures { result ≡ number_of names.now run.now }
{
    names.number(run).unwrap_or(names.count())
}
