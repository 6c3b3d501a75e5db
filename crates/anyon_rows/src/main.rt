//! Runs the worked rows: calls of the top call over texts in memory, as the file `rows.txt` lists them.
//!
//! A line `text NAME` begins a text, whose lines follow, each behind a `|`; a last line without its end stands
//! behind a `.`. A line `row WORDS` calls the program with these words over all texts of the file. What is printed
//! of a row is this line, what was written, and the status's code. A line `lines NAME WORDS` calls it with the text
//! of this name cut behind each of its lines in turn, and `bytes NAME WORDS` behind each of its bytes; the number of
//! bytes that are left is printed before each row.
#![tactic(auto)]

use anyon_app::anyon;
use io_ports::{MemSink, SureShelf};
use std::alloc::{AllocError, Global};
use std::{fs, io};

// The texts that the lines of a script spell, with their names.
fn texts(alloc: Global, script: &str) -> Result<Vec<(String, Vec<u8>)>, AllocError> {
    let mut texts = Vec::new(alloc);
    for line in script.lines() {
        if let Some(name) = line.strip_prefix("text ") {
            texts.push((String::from_str(alloc, name)?, Vec::new(alloc)))?;
        } else if let Some(content) = line.strip_prefix("|") {
            extend(&mut texts, content, "\n")?;
        } else if let Some(content) = line.strip_prefix(".") {
            extend(&mut texts, content, "")?;
        }
    }
    Ok(texts)
}

// Appends a line and its end to the last text.
fn extend(texts: &mut Vec<(String, Vec<u8>)>, content: &str, end: &str) -> Result<(), AllocError> {
    if let Some(last) = texts.last_mut() {
        last.1.extend_from_slice(content.as_bytes())?;
        last.1.extend_from_slice(end.as_bytes())?;
    }
    Ok(())
}

fn words(alloc: Global, line: &str) -> Result<Vec<String>, AllocError> {
    line.split_ascii_whitespace()
        .map(|word| String::from_str(alloc, word))
        .try_collect(alloc)
}

// Prints what the top call answers to these words.
fn run_row<R: Print>(rt: &R, alloc: Global, shelf: &mut SureShelf, line: &str) -> io::Result<()> {
    let words = words(alloc, line)?;
    let mut sink = MemSink::new(alloc, 4096, Vec::new(alloc), 256)?;
    let status = anyon(alloc, words.as_slice(), shelf, &mut sink);
    println!(rt; "row {line}")?;
    rt.write_all(sink.taken())?;
    println!(rt; "status {}", status.code())
}

// Where a text is cut.
#[derive(Clone, Copy, PartialEq, Eq)]
enum Piece {
    Line,
    Byte,
}

// The lengths of the beginnings of a text: none of it, and up to the end of each piece.
fn lengths(alloc: Global, text: &[u8], piece: Piece) -> Result<Vec<usize>, AllocError> {
    let mut lengths = vec![in alloc; 0]?;
    for (place, byte) in text.iter().enumerate() {
        if piece == Piece::Byte || *byte == b'\n' {
            lengths.push(place + 1)?;
        }
    }
    Ok(lengths)
}

// Calls the program with the first text of this name cut in turn.
fn run_cuts<R: Print>(
    rt: &R,
    alloc: Global,
    script: &str,
    line: &str,
    piece: Piece,
) -> io::Result<()> {
    let Some((name, words)) = line.split_once(' ') else {
        return Ok(());
    };
    let whole = texts(alloc, script)?;
    let Some(place) = whole.iter().position(|text| text.0.as_str() == name) else {
        return Ok(());
    };
    for length in lengths(alloc, &whole[place].1, piece)? {
        let mut cut = texts(alloc, script)?;
        if let Some(text) = cut.get_mut(place) {
            text.1.truncate(length);
        }
        println!(rt; "{length} bytes")?;
        run_row(rt, alloc, &mut SureShelf::new(cut, 4096), words)?;
    }
    Ok(())
}

fn main(rt: HostRuntime) -> io::Result<()> {
    let alloc = rt.alloc();
    let script = fs::read_to_string(&rt, "rows.txt")?;
    let mut shelf = SureShelf::new(texts(alloc, script.as_str())?, 4096);
    for line in script.lines() {
        if let Some(row) = line.strip_prefix("row ") {
            run_row(&rt, alloc, &mut shelf, row)?;
        } else if let Some(cuts) = line.strip_prefix("lines ") {
            run_cuts(&rt, alloc, script.as_str(), cuts, Piece::Line)?;
        } else if let Some(cuts) = line.strip_prefix("bytes ") {
            run_cuts(&rt, alloc, script.as_str(), cuts, Piece::Byte)?;
        }
    }
    Ok(())
}
