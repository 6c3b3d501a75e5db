//! The pieces of a word between its separators.
ghost use Rattle.std.specs.Prelude.{◌≡◌, List, [], ◌∷◌, length, MatchOption};
ghost use Rattle.std.specs.List.{slice_split};
ghost use Rattle.std.specs.Option.{option_map_or};
ghost use Rattle.cyclo_text.specs.NumberWords.{pieces};

use std::marker::Model;

/// The pieces of a word that are still ahead.
#[derive(Drop)]
pub struct Pieces<'a> {
    rest: Option<&'a [u8]>,
    separator: u8,
}

impl<'a> Model for Pieces<'a> {
    ghost use Rattle.std.specs.Prelude.{ℕ, List, []};
    ghost use Rattle.std.specs.Option.{option_map_or};
    ghost use Rattle.cyclo_text.specs.NumberWords.{pieces};

    ghost Value = { List (List ℕ) };

    ghost view = { λ a. option_map_or (λ rest. pieces a.separator rest.now) a.rest [] };

    ghost invariant = { λ a. Unit {0} };
}

impl<'a> Pieces<'a> {
    /// All pieces of a word.
    pub fn new(word: &'a [u8], separator: u8) -> Pieces<'a>
        ensures { result ≡ pieces separator word.now }
    {
        Pieces {
            rest: Some(word),
            separator,
        }
    }

    /// The next piece.
    pub fn next(&mut self) -> Option<&'a [u8]>
        ensures { MatchOption result ((self.old ≡ []) × (self.new ≡ [])) (λ piece. self.old ≡ piece.now ∷ self.new) }
    {
        match self.rest {
            None => None,
            Some(word) => {
                let (piece, rest) = split_first(word, self.separator);
                self.rest = rest;
                Some(piece)
            }
        }
    }
}

/// What stands before the first separator, and what stands after it.
fn split_first(word: &[u8], separator: u8) -> (&[u8], Option<&[u8]>)
    ensures { pieces separator word.now ≡ result.0.now ∷ option_map_or (λ rest. pieces separator rest.now) result.1 [] }
{
    for (at, byte) in word.iter().enumerate() {
        if *byte == separator {
            return (&word[..at], Some(&word[at + 1..]));
        }
    }
    (word, None)
}
