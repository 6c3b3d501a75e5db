ghost use Rattle.std.specs.Prelude.{◌≡◌, ◌∷◌, [], map, decimal};
ghost use Rattle.line_text.specs.Spelling.{spelled};
ghost use Rattle.line_text.specs.Writing.{Appends, CutsBack, Extends, spaced_on};

use itoa::Buffer;
use std::alloc::AllocError;

/// Appends one line: the words with one space between two, and its end.
///
/// For want of memory `out` is left as it was, here and in all writers.
pub fn write_line(words: &[&str], out: &mut Vec<u8>) -> Result<(), AllocError>
    ensures { Appends result out.old.items out.new.items (spelled (map (λ word. word.now) words.now ∷ [])) }
{
    match words {
        [first, others @ ..] => write_some(first, others, out),
        [] => end_line(out),
    }
}

/// Appends the line of at least one word.
fn write_some(first: &str, others: &[&str], out: &mut Vec<u8>) -> Result<(), AllocError>
    ensures { Appends result out.old.items out.new.items (spelled ((first.now ∷ map (λ word. word.now) others.now) ∷ [])) }
{
    let begun = out.len();
    let written = extend_line(first, others, out);
    cut_back(written, begun, out)
}

fn extend_line(first: &str, others: &[&str], out: &mut Vec<u8>) -> Result<(), AllocError>
    ensures { Extends result out.old.items out.new.items (spelled ((first.now ∷ map (λ word. word.now) others.now) ∷ [])) }
{
    out.extend_from_slice(first.as_bytes())?;
    write_words(others, out)?;
    end_line(out)?;
    Ok(())
}

/// Appends words, each behind a space.
pub fn write_words(words: &[&str], out: &mut Vec<u8>) -> Result<(), AllocError>
    ensures { Appends result out.old.items out.new.items (spaced_on (map (λ word. word.now) words.now)) }
{
    let begun = out.len();
    let written = extend_words(words, out);
    cut_back(written, begun, out)
}

fn extend_words(words: &[&str], out: &mut Vec<u8>) -> Result<(), AllocError>
    ensures { Extends result out.old.items out.new.items (spaced_on (map (λ word. word.now) words.now)) }
{
    for word in words {
        write_word(word, out)?;
    }
    Ok(())
}

/// Appends a word behind a space.
pub fn write_word(word: &str, out: &mut Vec<u8>) -> Result<(), AllocError>
    ensures { Appends result out.old.items out.new.items (32 ∷ word.now) }
{
    let begun = out.len();
    out.push(b' ')?;
    let written = out.extend_from_slice(word.as_bytes());
    cut_back(written, begun, out)
}

/// Appends a number behind a space, in decimal digits.
pub fn write_plain_number(number: u32, out: &mut Vec<u8>) -> Result<(), AllocError>
    ensures { Appends result out.old.items out.new.items (32 ∷ decimal number) }
{
    write_word(Buffer::new().format(number), out)
}

/// Appends the end of a line.
pub fn end_line(out: &mut Vec<u8>) -> Result<(), AllocError>
    ensures { Appends result out.old.items out.new.items (10 ∷ []) }
{
    out.push(b'\n')?;
    Ok(())
}

/// The answer of what was written from a place on; where that was refused, `out` is cut back to the place.
pub fn cut_back<E>(written: Result<(), E>, begun: usize, out: &mut Vec<u8>) -> Result<(), E>
    ensures answer { result ≡ written }
    ensures left { CutsBack written begun out.old.items out.new.items }
{
    if written.is_err() {
        out.truncate(begun);
    }
    written
}
