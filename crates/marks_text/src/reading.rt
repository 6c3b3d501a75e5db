//! Marks texts.

ghost use Rattle.std.specs.Prelude.{◌≡◌, ◌<◌, ◌-◌, ◌^◌, length, Err, IfOk, IsOk, OnOk};
ghost use Rattle.line_text.specs.Text.{words_of};
ghost use Rattle.category_text.specs.Named.{named_draft, seen};
ghost use Rattle.marks_text.specs.Answers.{Told};
ghost use Rattle.marks_text.specs.Reading.{mark_line_of, marks_in, marks_on, marks_with};
ghost use Rattle.marks_text.specs.declared.fault.MarksFault.{MarksFault};

use crate::fault::MarksFault;
use crate::header::read_header;
use crate::mark_line::{read_mark, set_mark};
use category_text::Named;
use cyclo_core::Cyclo;
use fusion_rules::Names;
use line_text::{Line, Lines};
use std::alloc::Global;
use symbol_table::Draft;

/// A category of version 1, brought to version 2 by a marks text, or the first line that is refused, with its first
/// cause.
///
/// The first line has the words `marks 1`, and every further line one mark, in any order: `twist LABEL NUMBER` for the
/// twist of a label, `loop LABEL NUMBER` for its loop value, with a number of the category's root. Blank lines and
/// comments are skipped, and counted. A mark without a line is 1. Names, triples and symbols stay as they are; the marks
/// aren't judged. A refusal drops the category. `Memory` is free.
pub fn read_marks(_alloc: Global, named: Named, bytes: &[u8]) -> Result<Named, MarksFault>
    requires version { named.draft.version ≡ 1 }
    requires counts { length named.names ≡ named.draft.rules.count }
    requires short { length bytes.now < 2 ^ 32 - 1 }
    ensures marked { Told seen result (marks_in (seen named) bytes.now) }
    ensures counts { IfOk result (λ n. length n.names ≡ n.draft.rules.count) }
{
    let Named { names, mut draft } = named;
    read_text(&names, &mut draft, bytes)?;
    Ok(Named { names, draft })
}

/// Reads the whole text into the draft.
#[tactic(auto, unfolding(crate::specs::Reading::marks_in))]
fn read_text(names: &Names, draft: &mut Draft<Cyclo>, bytes: &[u8]) -> Result<(), MarksFault>
    requires version { draft.old.version ≡ 1 }
    requires counts { length names.now ≡ draft.old.rules.count }
    requires short { length bytes.now < 2 ^ 32 - 1 }
    ensures marked { Told (λ _. named_draft names.now draft.new) result (marks_in (named_draft names.now draft.old) bytes.now) }
    ensures rules { OnOk result (draft.new.rules ≡ draft.old.rules) }
{
    let mut lines = Lines::new(bytes);
    read_header(&mut lines)?;
    draft.second();
    read_lines(names, &mut lines, draft)
}

/// Reads the lines behind the first.
fn read_lines(names: &Names, lines: &mut Lines, draft: &mut Draft<Cyclo>) -> Result<(), MarksFault>
    requires version { draft.old.version ≡ 2 }
    requires counts { length names.now ≡ draft.old.rules.count }
    ensures said { Told (λ _. named_draft names.now draft.new) result (marks_on (named_draft names.now draft.old) lines.old.ahead) }
    ensures rules { draft.new.rules ≡ draft.old.rules }
{
    while let Some(line) = lines.next_line()? {
        read_line(names, &line, draft)?;
    }
    Ok(())
}

/// Reads a line behind the first. Want of memory refuses only a line that is in order.
fn read_line(names: &Names, line: &Line, draft: &mut Draft<Cyclo>) -> Result<(), MarksFault>
    requires version { draft.old.version ≡ 2 }
    requires counts { length names.now ≡ draft.old.rules.count }
    ensures said { Told (λ _. named_draft names.now draft.new) result
        (marks_with (named_draft names.now draft.old) line.now.number (words_of line.now.text.now)) }
    ensures memory { result ≡ Err MarksFault.Memory → IsOk (mark_line_of (named_draft names.now draft.old) (words_of line.now.text.now)) }
    ensures rules { draft.new.rules ≡ draft.old.rules }
    ensures version { draft.new.version ≡ draft.old.version }
{
    match read_mark(names, line, draft) {
        Ok(mark) => {
            set_mark(draft, mark)?;
            Ok(())
        }
        Err(cause) => Err(MarksFault::At {
            line: line.number,
            cause,
        }),
    }
}
