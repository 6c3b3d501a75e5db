ghost use Rattle.std.specs.Prelude.{◌≤◌, length};
ghost use Rattle.line_text.specs.declared.line.TheConstants.{LINE_LIMIT};

/// The most bytes of a line, without its end.
pub const LINE_LIMIT: usize = 1024;

/// A line that is neither blank nor a comment.
#[derive(Clone, Copy)]
pub struct Line<'a> {
    /// Its number in the text, counted from 1, skipped lines among them.
    pub number: u32,
    /// Its bytes without the end, at most [`LINE_LIMIT`].
    pub text: &'a [u8],
    pub ghost short: { length text.now ≤ LINE_LIMIT },
}
