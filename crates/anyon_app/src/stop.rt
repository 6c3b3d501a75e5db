// What ends a command without a report.
ghost use Rattle.std.specs.Prelude.{map};
ghost use Rattle.anyon_app.specs.Lines.{refusal_of, limit_of};
ghost use Rattle.anyon_app.specs.Stages.{StopsWith};

use crate::lines::line;
use std::alloc::Global;

/// What ends a command without a report: a line that is written in its place, or nothing to write.
#[derive(Drop)]
pub enum Stop {
    /// The line of a refusal.
    RefusalLine(Vec<u8>),
    /// The line of a limit.
    LimitLine(Vec<u8>),
    /// A read of a text failed.
    Unread,
    /// There was no memory.
    Memory,
}

/// Stops with the line of a refusal, whose words after the first are these.
pub fn refusal(alloc: Global, words: &[&str]) -> Stop
    ensures { StopsWith (refusal_of (map (λ word. word.now) words.now)) result }
{
    match line(alloc, "refused", words) {
        Ok(line) => Stop::RefusalLine(line),
        Err(_) => Stop::Memory,
    }
}

/// Stops with the line of a limit, whose words after the first are these.
pub fn limit(alloc: Global, words: &[&str]) -> Stop
    ensures { StopsWith (limit_of (map (λ word. word.now) words.now)) result }
{
    match line(alloc, "limit", words) {
        Ok(line) => Stop::LimitLine(line),
        Err(_) => Stop::Memory,
    }
}
