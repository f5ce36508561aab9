//! What can be wrong with buffers of one period.

use csv_instance::InstanceFault;
use dsa_model::BufferFault;

/// Why a file holds no buffers of one period. The faults of the file come first, those of all rows
/// among them; then the first row that has a fault, and in a row the first in this order. Rows are
/// numbered from 0 after the header, as buffers are.
#[derive(Clone, Copy)]
pub enum CycleFault {
    /// The file has no rows that can be read, for their first fault.
    Instance(InstanceFault),
    /// The row's `lower` is not below the period, or its `upper` is above it.
    Outside { row: u32 },
    /// The row tells of a buffer with a fault.
    BadBuffer { row: u32, fault: BufferFault },
}
