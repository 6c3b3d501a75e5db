/// Why a line can't be read.
#[derive(Clone, Copy, Debug, PartialEq, Eq)]
pub enum LineCause {
    /// It has more than [`LINE_LIMIT`](crate::LINE_LIMIT) bytes without its end.
    TooLong,
    /// It isn't too long, and has a byte outside 0x20 to 0x7E.
    NotAscii,
}

/// A line that can't be read.
#[derive(Clone, Copy, Debug, PartialEq, Eq)]
pub struct LineFault {
    /// The number of the line in the text, counted from 1, skipped lines among them.
    pub line: u32,
    /// Why it can't be read.
    pub cause: LineCause,
}
