ghost use Rattle.std.specs.Prelude.{◌≤◌, length};
ghost use Rattle.tree_shapes.specs.declared.limits.TheConstants.{STRAND_LIMIT};
ghost use Rattle.program_text.specs.declared.form.TheConstants.{COMMAND_LIMIT};

use crate::plan::{Outcome, Site};

/// A program as far as its lines were read: the sites before the current one, the current one, whether a site line was
/// read, the named outcomes, the strands as the braids leave them, and how many commands and measurements there are.
#[derive(Drop)]
pub(crate) struct Draft {
    pub earlier: Vec<Site>,
    pub current: Site,
    pub has_site: bool,
    pub outcomes: Vec<Outcome>,
    pub strands: Vec<u8>,
    pub commands: u32,
    pub measured: u32,
    pub ghost some: { 1 ≤ current.first },
    pub ghost inside: { current.last ≤ length strands.items },
    pub ghost strands_few: { length strands.items ≤ STRAND_LIMIT },
    pub ghost counted: { measured ≤ commands },
    pub ghost few: { commands ≤ COMMAND_LIMIT },
}
