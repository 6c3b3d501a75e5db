ghost use Rattle.category_text.specs.Spelled.{SpelledAgain};
ghost use Rattle.category_text.specs.Again.{AllReadAgain, AllSaid, AllSettled, AllShort, OneText, SameText, TextsApart, TextsReadAgain, TextsSettled, TextsShort};

/// A spelled text is read again: the head, new triples, and values of new admissible indices, each line with one space
/// between words. What it says is exactly these.
pub fn spelled_categories()
    ensures spelled_again { SpelledAgain }
{}

/// What can be said is read again from its canonical text, to the same category: the version, the root, the names, the
/// triples, F, R, w and v at all labels, and the marks; the text is short enough for the reader. Two that have one text are the same, and the same
/// has one text; so what is written of what was read from a canonical text is that text.
///
/// What is read of any text can be said, so all of this holds of every text that is read: its canonical text is short
/// enough and is read again, to the same category; written again it is the same text; and texts of two categories have
/// different canonical texts.
pub fn canonical_texts()
    ensures read_again { AllReadAgain }
    ensures short { AllShort }
    ensures one_text { OneText }
    ensures same_text { SameText }
    ensures settled { AllSettled }
    ensures said { AllSaid }
    ensures texts_again { TextsReadAgain }
    ensures texts_short { TextsShort }
    ensures texts_apart { TextsApart }
    ensures texts_settled { TextsSettled }
{}
