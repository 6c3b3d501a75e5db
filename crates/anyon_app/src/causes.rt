// The causes of refused lines, as they are written.
ghost use Rattle.std.specs.Prelude.{◌≡◌};
ghost use Rattle.anyon_app.specs.Causes.{category_cause, line_cause, marks_cause, moves_cause, number_cause};

use category_text::CategoryCause;
use cyclo_text::NumberWord;
use line_text::LineCause;
use marks_text::MarksCause;
use word_moves::MovesCause;

/// The words of a cause that any text can have.
pub fn line_words(cause: LineCause) -> &'static str
    ensures { result.now ≡ line_cause cause }
{
    match cause {
        LineCause::TooLong => "line too long",
        LineCause::NotAscii => "not ascii",
    }
}

/// The words of a cause of a number word.
pub fn number_words(cause: NumberWord) -> &'static str
    ensures { result.now ≡ number_cause cause }
{
    match cause {
        NumberWord::Spelling => "number spelling",
        NumberWord::TooManyParts => "number parts",
        NumberWord::TooBig => "number too big",
        NumberWord::ZeroDenominator => "number zero denominator",
    }
}

/// The words of a cause of a category text.
pub fn category_words(cause: CategoryCause) -> &'static str
    ensures { result.now ≡ category_cause cause }
{
    match cause {
        CategoryCause::Line(cause) => line_words(cause),
        CategoryCause::Header => "header",
        CategoryCause::Root => "root",
        CategoryCause::Labels => "labels",
        CategoryCause::Limit => "limit",
        CategoryCause::Repeated => "repeated",
        CategoryCause::Misplaced => "misplaced",
        CategoryCause::Word => "word",
        CategoryCause::Short => "short",
        CategoryCause::Long => "long",
        CategoryCause::UnknownLabel => "unknown label",
        CategoryCause::UnitFuse => "unit fuse",
        CategoryCause::NotAdmissible => "not admissible",
        CategoryCause::Number(cause) => number_words(cause),
    }
}

/// The words of a cause of a marks text.
pub fn marks_words(cause: MarksCause) -> &'static str
    ensures { result.now ≡ marks_cause cause }
{
    match cause {
        MarksCause::Line(cause) => line_words(cause),
        MarksCause::Header => "header",
        MarksCause::Word => "word",
        MarksCause::Short => "short",
        MarksCause::Long => "long",
        MarksCause::UnknownLabel => "unknown label",
        MarksCause::Repeated => "repeated",
        MarksCause::Number(cause) => number_words(cause),
    }
}

/// The words of a cause of a moves text.
pub fn moves_words(cause: MovesCause) -> &'static str
    ensures { result.now ≡ moves_cause cause }
{
    match cause {
        MovesCause::Line(cause) => line_words(cause),
        MovesCause::Header => "header",
        MovesCause::Command => "command",
        MovesCause::Place => "place",
    }
}
