/// The most words that may be live after a step.
pub const WORD_LIMIT: usize = 4096;

/// The most amplitudes that may stand over all live words after a step.
pub const AMPLITUDE_LIMIT: usize = 65536;

/// The greatest count that a stop tells; a count that is greater stands still there.
pub const GREATEST_COUNT: usize = 4294967295;
