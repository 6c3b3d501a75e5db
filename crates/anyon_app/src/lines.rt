// One line that is written.
ghost use Rattle.std.specs.Prelude.{◌≡◌, ◌∷◌, map, IfOk};
ghost use Rattle.anyon_app.specs.Lines.{line_of};

use line_text::{end_line, write_words};
use std::alloc::{AllocError, Global};

/// One line of words, with one space between two and its end.
#[tactic(auto, using(crate::proofs::LineLemmas::line_is))]
pub fn line(alloc: Global, first: &str, others: &[&str]) -> Result<Vec<u8>, AllocError>
    ensures { IfOk result (λ line. line.items ≡ line_of (first.now ∷ map (λ word. word.now) others.now)) }
{
    let mut line = Vec::from_slice(alloc, first.as_bytes())?;
    write_words(others, &mut line)?;
    end_line(&mut line)?;
    Ok(line)
}
