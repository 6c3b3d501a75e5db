//! The first line.

ghost use Rattle.std.specs.Prelude.{◌≡◌};
ghost use Rattle.line_text.specs.Text.{words_of};
ghost use Rattle.marks_text.specs.Answers.{Told};
ghost use Rattle.marks_text.specs.Reading.{behind_header, is_header};

use crate::fault::{MarksCause, MarksFault};
use crate::words::has_two_words;
use line_text::{Line, Lines};

/// Reads the line `marks 1`.
pub(crate) fn read_header(lines: &mut Lines) -> Result<(), MarksFault>
    ensures { Told (λ _. lines.new.ahead) result (behind_header lines.old.count lines.old.ahead) }
{
    let cause = MarksCause::Header;
    match lines.next_line()? {
        Some(line) if is_header(&line) => Ok(()),
        Some(line) => Err(MarksFault::At {
            line: line.number,
            cause,
        }),
        None => Err(MarksFault::At {
            line: lines.count() + 1,
            cause,
        }),
    }
}

fn is_header(line: &Line) -> bool
    ensures { result ≡ is_header (words_of line.now.text.now) }
{
    has_two_words(line) && line.has_word(0, b"marks") && line.has_word(1, b"1")
}
