ghost use Rattle.line_text.specs.Spelling.{LinesAgain, WordsAgain};
ghost use Rattle.line_text.specs.Plain.{NumberAgain, NumberExact};

/// What is spelled is found again: lines of words, the words of a line, and plain numbers. A plain number is the
/// spelling of its value.
pub fn spelled_lines()
    ensures lines_again { LinesAgain }
    ensures words_again { WordsAgain }
    ensures number_again { NumberAgain }
    ensures number_exact { NumberExact }
{}
