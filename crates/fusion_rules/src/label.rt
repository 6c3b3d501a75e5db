/// The most labels of a category.
pub const LABEL_LIMIT: usize = 12;

/// The label of the unit.
pub const UNIT: u8 = 0;
