use crate::plan::Sign;

/// The forms of command lines: `braid K S`, `braid K S when NAME LABEL`, `raise K`, `measure K` and
/// `measure K as NAME`.
#[derive(Clone, Copy, Debug, PartialEq, Eq, Drop)]
pub(crate) enum LineForm {
    Braid(Sign),
    BraidWhen(Sign),
    Raise,
    Measure,
    MeasureAs,
}
