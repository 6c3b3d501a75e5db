//! The summary of a run that was made from a number.

ghost use Rattle.std.specs.Prelude.{◌≡◌, ◌∷◌, ◌++◌, [], OnOk, OnErr};
ghost use Rattle.line_text.specs.Spelling.{spelled};
ghost use Rattle.line_text.specs.Writing.{Extends};
ghost use Rattle.outcome_rows.specs.Rows.{outcomes_in, rows_of};
ghost use Rattle.outcome_report.specs.Summary.{count_lines, count_words, outcome_lines, summary_of, weight_words};

use crate::labels::extend_number;
use crate::row_lines::extend_total;
use cyclo_core::Cyclo;
use itoa::Buffer;
use line_text::{cut_back, end_line, write_word};
use outcome_rows::{Row, Rows};
use std::alloc::{AllocError, Global};

/// The number that a program was made from, and how many commands and measurements the program has.
#[derive(Clone, Copy, Debug, PartialEq, Eq)]
pub struct Counts {
    pub number: u32,
    pub commands: u32,
    pub measurements: u32,
}

/// Appends six lines: `made NUMBER`, `commands COUNT`, `measurements COUNT`, `total NUMBER`, `outcomes COUNT` with the
/// number of rows, and `weight NUMBER` with the weight of the first row, 0 where there is none.
///
/// For want of memory `out` is as it was.
pub fn summary(
    alloc: Global,
    counts: Counts,
    rows: &Rows<Cyclo>,
    out: &mut Vec<u8>,
) -> Result<(), AllocError>
    ensures written { OnOk result (out.new.items ≡ out.old.items ++ summary_of counts.number counts.commands counts.measurements (outcomes_in rows.now)) }
    ensures unchanged { OnErr result (out.new.items ≡ out.old.items) }
{
    let begun = out.len();
    let written = extend_summary(alloc, counts, rows, out);
    cut_back(written, begun, out)
}

#[tactic(auto, using(line_text::proofs::WritingLemmas::still_in_front, line_text::proofs::WritingLemmas::in_front))]
fn extend_summary(
    alloc: Global,
    counts: Counts,
    rows: &Rows<Cyclo>,
    out: &mut Vec<u8>,
) -> Result<(), AllocError>
    ensures { Extends result out.old.items out.new.items (summary_of counts.number counts.commands counts.measurements (outcomes_in rows.now)) }
{
    extend_counts(counts, out)?;
    extend_outcomes(alloc, rows, out)?;
    Ok(())
}

/// Appends the first three lines.
#[tactic(auto, using(line_text::proofs::WritingLemmas::still_in_front, line_text::proofs::WritingLemmas::in_front))]
fn extend_counts(counts: Counts, out: &mut Vec<u8>) -> Result<(), AllocError>
    ensures { Extends result out.old.items out.new.items (spelled (count_lines counts.number counts.commands counts.measurements)) }
{
    extend_count(b"made", counts.number as usize, out)?;
    extend_count(b"commands", counts.commands as usize, out)?;
    extend_count(b"measurements", counts.measurements as usize, out)?;
    Ok(())
}

/// Appends the last three lines.
#[tactic(auto, using(line_text::proofs::WritingLemmas::still_in_front, line_text::proofs::WritingLemmas::in_front))]
fn extend_outcomes(alloc: Global, rows: &Rows<Cyclo>, out: &mut Vec<u8>) -> Result<(), AllocError>
    ensures { Extends result out.old.items out.new.items (spelled (outcome_lines (outcomes_in rows.now))) }
{
    extend_total(alloc, &rows.total, out)?;
    extend_count(b"outcomes", rows.list.len(), out)?;
    extend_weight(alloc, &rows.list, out)?;
    Ok(())
}

/// Appends a line of a word and a count.
#[tactic(auto, using(line_text::proofs::WritingLemmas::still_in_front, line_text::proofs::WritingLemmas::in_front))]
fn extend_count(word: &[u8], count: usize, out: &mut Vec<u8>) -> Result<(), AllocError>
    ensures { Extends result out.old.items out.new.items (spelled (count_words word.now count ∷ [])) }
{
    out.extend_from_slice(word)?;
    write_word(Buffer::new().format(count), out)?;
    end_line(out)?;
    Ok(())
}

/// Appends the line of the first weight.
#[tactic(auto, using(line_text::proofs::WritingLemmas::still_in_front, line_text::proofs::WritingLemmas::in_front))]
fn extend_weight(alloc: Global, rows: &[Row<Cyclo>], out: &mut Vec<u8>) -> Result<(), AllocError>
    ensures { Extends result out.old.items out.new.items (spelled (weight_words (rows_of rows.now) ∷ [])) }
{
    let Some(first) = rows.first() else {
        return extend_count(b"weight", 0, out);
    };
    out.extend_from_slice(b"weight")?;
    extend_number(alloc, &first.weight, out)?;
    end_line(out)?;
    Ok(())
}
