ghost use Rattle.std.specs.Prelude.{◌≡◌, ◌≤◌, [], length, IfOk, OnOk};
ghost use Rattle.program_text.specs.Program.{program_of};
ghost use Rattle.program_text.specs.WellFormed.{commands_in};
ghost use Rattle.program_text.specs.declared.form.TheConstants.{COMMAND_LIMIT};
ghost use Rattle.tree_shapes.specs.declared.limits.TheConstants.{STRAND_LIMIT};
ghost use Rattle.site_schedule.specs.Answers.{IsBehind};

use crate::queue::Queue;
use crate::queues::queues_of;
use program_text::Plan;
use std::alloc::{AllocError, Global};

/// The turns so far, what the sites have left, and marks at the places that are measured.
#[derive(Drop)]
pub(crate) struct Progress<'a> {
    pub turns: Vec<u8>,
    pub queues: Vec<Queue<'a>>,
    pub marks: Vec<bool>,
}

/// Before the first turn.
pub(crate) fn begin(alloc: Global, plan: &Plan) -> Result<Progress, AllocError>
    requires commands { length (commands_in (program_of plan.now).sites) ≤ COMMAND_LIMIT }
    requires sites { length plan.now.sites.items ≤ STRAND_LIMIT }
    ensures turns { IfOk result (λ progress. progress.turns.items ≡ []) }
    ensures behind { IfOk result (IsBehind (program_of plan.now)) }
{
    Ok(Progress {
        turns: Vec::new(alloc),
        queues: queues_of(alloc, plan)?,
        marks: Vec::new(alloc),
    })
}
