//! What can be wrong with a trace.

/// Why bytes are no trace: the fault of the first line that has one, and in a line the first in
/// this order. Lines are numbered from 0.
#[derive(Clone, Copy)]
pub enum TraceFault {
    /// The line is neither `alloc ID SIZE ALIGNMENT` nor `free ID`, or does not end.
    BadLine { line: u32 },
    /// The size is not 1 to `SIZE_LIMIT`.
    BadSize { line: u32 },
    /// The alignment is not 1 to `ALIGNMENT_LIMIT`.
    BadAlignment { line: u32 },
    /// The line allocates an identifier that the line `earlier` allocated and none has freed since.
    StillLive { line: u32, earlier: u32 },
    /// The line frees an identifier that no line holds.
    NotLive { line: u32 },
    /// The line allocates one buffer more than an instance has at most.
    TooManyBuffers { line: u32 },
}
