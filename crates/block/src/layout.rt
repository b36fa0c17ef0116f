//! What stands where in a block.

/// The bytes of a block.
pub const SIZE: usize = 512;
/// The bytes of a record.
pub const RECORD: usize = 16;
/// The most records that a block holds.
pub const MOST: usize = 31;

/// Where the block's number stands, after the most records.
pub const NUMBER_AT: usize = 496;
/// Where the count of its records stands.
pub const COUNT_AT: usize = 500;
/// Where its check stands, over all that comes before.
pub const CHECK_AT: usize = 508;
