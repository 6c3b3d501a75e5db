ghost use Rattle.std.specs.Prelude.{◌≡◌, ◌<◌, ◌==◌, length};
ghost use Rattle.line_text.specs.Text.{words_of};
ghost use Rattle.category_text.specs.Reading.{sized};

use crate::fault::CategoryCause;
use line_text::Line;

/// Whether a line has so many words.
pub(crate) fn sized(line: &Line, count: usize) -> Result<(), CategoryCause>
    requires { 0 < count }
    ensures { result ≡ sized count (words_of line.now.text.now) }
{
    if line.word(count - 1).is_none() {
        return Err(CategoryCause::Short);
    }
    if line.word(count).is_some() {
        return Err(CategoryCause::Long);
    }
    Ok(())
}

/// Whether a line has two words.
pub(crate) fn has_two_words(line: &Line) -> bool
    ensures { result ≡ (length (words_of line.now.text.now) == 2) }
{
    line.word(1).is_some() && line.word(2).is_none()
}
