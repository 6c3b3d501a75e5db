ghost use Rattle.std.specs.Prelude.{◌≤◌, ◌+◌, length};
ghost use Rattle.program_text.specs.declared.form.TheConstants.{COMMAND_LIMIT};

use program_text::Command;

/// The commands that a site has left, and the place of the first measurement among them.
#[derive(Clone, Copy)]
pub(crate) struct Queue<'a> {
    pub left: &'a [Command],
    pub place: u32,
    pub ghost fits: { place + length left.now ≤ COMMAND_LIMIT },
}
