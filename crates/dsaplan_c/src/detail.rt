//! What is told beside a status.

/// What is told beside a status; a number of which nothing is told is 0.
#[repr(C)]
#[derive(Clone, Copy)]
pub struct Detail {
    /// No layout fits within less, in bytes.
    pub low: u64,
    /// The height of the layout that is written, in bytes.
    pub high: u64,
    /// The buffer that has a fault.
    pub buffer: u32,
    /// The fault, by its number in `Faults` of the C header.
    pub fault: u32,
    /// The gap that has the fault.
    pub gap: u32,
}
