//! The first line.

ghost use Rattle.std.specs.Prelude.{◌≡◌, ◌<◌, ◌==◌, length};
ghost use Rattle.line_text.specs.Text.{words_of};
ghost use Rattle.site_schedule.specs.Answers.{Told};
ghost use Rattle.site_schedule.specs.Reading.{behind_header, is_header};

use crate::fault::ScheduleFault;
use line_text::{Line, Lines};

/// Reads the line `schedule 1`.
pub(crate) fn read_header(lines: &mut Lines) -> Result<(), ScheduleFault>
    ensures { Told (λ _. lines.new.ahead) result (behind_header lines.old.count lines.old.ahead) }
{
    match lines.next_line()? {
        Some(line) if is_header(&line) => Ok(()),
        Some(line) => Err(ScheduleFault::Header { line: line.number }),
        None => Err(ScheduleFault::Header {
            line: lines.count() + 1,
        }),
    }
}

fn is_header(line: &Line) -> bool
    ensures { result ≡ is_header (words_of line.now.text.now) }
{
    has_words(line, 2) && line.has_word(0, b"schedule") && line.has_word(1, b"1")
}

/// Whether a line has so many words.
fn has_words(line: &Line, count: usize) -> bool
    requires { 0 < count }
    ensures { result ≡ (length (words_of line.now.text.now) == count) }
{
    line.word(count - 1).is_some() && line.word(count).is_none()
}
