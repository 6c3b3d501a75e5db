ghost use Rattle.std.specs.Prelude.{◌≡◌, ◌<◌, ◌==◌, length};
ghost use Rattle.line_text.specs.Text.{words_of};

use line_text::Line;

/// Whether a line has so many words.
pub(crate) fn has_words(line: &Line, count: usize) -> bool
    requires { 0 < count }
    ensures { result ≡ (length (words_of line.now.text.now) == count) }
{
    line.word(count - 1).is_some() && line.word(count).is_none()
}
