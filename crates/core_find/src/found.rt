//! What is found of an instance at a capacity.

use refute_log::ClosedLog;

/// Buffers that do not fit at a capacity, while the others fit without any one of them.
#[derive(Drop)]
pub struct Core {
    /// Their numbers, which rise.
    pub members: Vec<u32>,
    /// A log that is accepted for the instance of these buffers at the capacity.
    pub log: ClosedLog,
    /// For each member a layout of the others at the capacity: offsets in bytes, in their order.
    pub rests: Vec<Vec<u64>>,
}

/// Whether the buffers of an instance fit at a capacity.
#[derive(Drop)]
pub enum Found {
    /// They fit: offsets in bytes, one for each buffer in order.
    Fits(Vec<u64>),
    /// They do not fit, and these alone do not.
    Core(Core),
}
