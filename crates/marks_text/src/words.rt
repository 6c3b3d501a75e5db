ghost use Rattle.std.specs.Prelude.{◌≡◌, ◌<◌, ◌==◌, length};
ghost use Rattle.line_text.specs.Text.{words_of};
ghost use Rattle.marks_text.specs.Reading.{sized};

use crate::fault::MarksCause;
use line_text::Line;

/// Whether a line has two words.
pub(crate) fn has_two_words(line: &Line) -> bool
    ensures { result ≡ (length (words_of line.now.text.now) == 2) }
{
    line.word(1).is_some() && line.word(2).is_none()
}

/// Whether a line has three words.
pub(crate) fn sized(line: &Line) -> Result<(), MarksCause>
    ensures { result ≡ sized (words_of line.now.text.now) }
{
    if line.word(2).is_none() {
        return Err(MarksCause::Short);
    }
    if line.word(3).is_some() {
        return Err(MarksCause::Long);
    }
    Ok(())
}
