/// The most strands of a tree.
pub const STRAND_LIMIT: usize = 24;

/// The most node labels of a tree: one for each strand after the first.
pub const KEY_LIMIT: usize = 23;

/// The most raises that make a node a pair: one for each other node.
pub const SETTLE_LIMIT: usize = 22;
