//! The first line.

ghost use Rattle.std.specs.Prelude.{◌≡◌};
ghost use Rattle.line_text.specs.Text.{words_of};
ghost use Rattle.word_moves.specs.Answers.{Told};
ghost use Rattle.word_moves.specs.Reading.{behind_header, is_header};

use crate::fault::{MovesCause, MovesFault};
use crate::words::has_words;
use line_text::{Line, Lines};

/// Reads the line `moves 1`.
pub(crate) fn read_header(lines: &mut Lines) -> Result<(), MovesFault>
    ensures { Told (λ _. lines.new.ahead) result (behind_header lines.old.count lines.old.ahead) }
{
    let cause = MovesCause::Header;
    match lines.next_line()? {
        Some(line) if is_header(&line) => Ok(()),
        Some(line) => Err(MovesFault::At {
            line: line.number,
            cause,
        }),
        None => Err(MovesFault::At {
            line: lines.count() + 1,
            cause,
        }),
    }
}

fn is_header(line: &Line) -> bool
    ensures { result ≡ is_header (words_of line.now.text.now) }
{
    has_words(line, 2) && line.has_word(0, b"moves") && line.has_word(1, b"1")
}
