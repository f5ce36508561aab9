//! The greatest numbers.

/// The greatest capacity, offset and bound, and the greatest number of a command or of a log, times
/// aside.
pub const NUMBER_LIMIT: u64 = 1152921504606846976;

/// The greatest time, and the greatest number of an instance file.
pub const TIME_LIMIT: u64 = 4611686018427387903;

/// The greatest number of bytes of a file that is read, but of a log's.
pub const FILE_LIMIT: u64 = 67108864;
