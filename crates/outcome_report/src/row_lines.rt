//! The report of rows.

ghost use Rattle.std.specs.Prelude.{◌≡◌, ◌∷◌, ◌++◌, [], OnOk, OnErr};
ghost use Rattle.line_text.specs.Spelling.{spelled};
ghost use Rattle.line_text.specs.Writing.{Extends};
ghost use Rattle.outcome_rows.specs.Rows.{outcomes_in};
ghost use Rattle.outcome_report.specs.Report.{report_of, row_words, total_words};

use crate::labels::{extend_labels, extend_number};
use cyclo_core::{Cyclo, Number};
use fusion_rules::Names;
use line_text::{cut_back, end_line};
use outcome_rows::{Row, Rows};
use std::alloc::{AllocError, Global};

/// Appends `total NUMBER`, and for each row `outcome`, the labels of its word, `weight` and its number.
///
/// For want of memory `out` is as it was.
pub fn report(
    alloc: Global,
    names: &Names,
    rows: &Rows<Cyclo>,
    out: &mut Vec<u8>,
) -> Result<(), AllocError>
    ensures written { OnOk result (out.new.items ≡ out.old.items ++ report_of names.now (outcomes_in rows.now)) }
    ensures unchanged { OnErr result (out.new.items ≡ out.old.items) }
{
    let begun = out.len();
    let written = extend_report(alloc, names, rows, out);
    cut_back(written, begun, out)
}

#[tactic(auto, using(line_text::proofs::WritingLemmas::still_in_front, line_text::proofs::WritingLemmas::in_front))]
fn extend_report(
    alloc: Global,
    names: &Names,
    rows: &Rows<Cyclo>,
    out: &mut Vec<u8>,
) -> Result<(), AllocError>
    ensures { Extends result out.old.items out.new.items (report_of names.now (outcomes_in rows.now)) }
{
    extend_total(alloc, &rows.total, out)?;
    for row in &rows.list {
        extend_row(alloc, names, row, out)?;
    }
    Ok(())
}

#[tactic(auto, using(line_text::proofs::WritingLemmas::still_in_front, line_text::proofs::WritingLemmas::in_front))]
pub(crate) fn extend_total(
    alloc: Global,
    total: &Number,
    out: &mut Vec<u8>,
) -> Result<(), AllocError>
    ensures { Extends result out.old.items out.new.items (spelled (total_words total.now ∷ [])) }
{
    out.extend_from_slice(b"total")?;
    extend_number(alloc, total, out)?;
    end_line(out)?;
    Ok(())
}

/// Appends the line of a row.
#[tactic(auto, using(line_text::proofs::WritingLemmas::still_in_front, line_text::proofs::WritingLemmas::in_front))]
fn extend_row(
    alloc: Global,
    names: &Names,
    row: &Row<Cyclo>,
    out: &mut Vec<u8>,
) -> Result<(), AllocError>
    ensures { Extends result out.old.items out.new.items (spelled (row_words names.now (row.now.word.items, row.now.weight) ∷ [])) }
{
    out.extend_from_slice(b"outcome")?;
    extend_labels(names, &row.word, out)?;
    out.extend_from_slice(b" weight")?;
    extend_number(alloc, &row.weight, out)?;
    end_line(out)?;
    Ok(())
}
