//! Instances of a few buffers.

use dsa_model::{BUFFER_LIMIT, Buffer, BufferFault, Fail, Instance, NoMemory};
use std::alloc::Global;

/// A buffer without gaps: lower, upper, size and alignment.
pub(crate) type Row = (u32, u32, u32, u32);

/// Five buffers of size 4, of which three are live at once: 12 is the least capacity.
pub(crate) const FIVE: &[Row] = &[
    (0, 3, 4, 1),
    (3, 9, 4, 1),
    (0, 9, 4, 1),
    (9, 21, 4, 1),
    (0, 21, 4, 1),
];

/// Two buffers at even offsets and a third one of their sizes together: 5 is the least capacity.
pub(crate) const THREE: &[Row] = &[(0, 1, 1, 2), (0, 1, 1, 2), (0, 1, 2, 1)];

/// A small one that is aligned has to stand below, where no start has it: 4 is the least capacity.
pub(crate) const TWO: &[Row] = &[(0, 1, 3, 1), (0, 1, 1, 4)];

/// Two buffers at multiples of four: 7 is the least capacity.
pub(crate) const FOURS: &[Row] = &[(0, 1, 3, 4), (0, 1, 3, 4)];

/// Puts the buffer last, where there is room for one more.
pub(crate) fn add(instance: &mut Instance, buffer: Buffer) -> Result<(), NoMemory> {
    if instance.len() < BUFFER_LIMIT {
        instance.push(buffer)?;
    }
    Ok(())
}

/// The instance of the rows.
pub(crate) fn instance_of(alloc: Global, rows: &[Row]) -> Result<Instance, Fail<BufferFault>> {
    instance_above(alloc, rows, &[])
}

/// Puts the buffer of the row last, with this lowest.
pub(crate) fn add_row(
    alloc: Global,
    instance: &mut Instance,
    row: Row,
    lowest: u64,
) -> Result<(), Fail<BufferFault>> {
    let (lower, upper, size, alignment) = row;
    let (lower, upper) = (lower as u64, upper as u64);
    let (size, alignment) = (size as u64, alignment as u64);
    let buffer = Buffer::new(alloc, lower, upper, size, alignment, &[], lowest)?;
    Ok(add(instance, buffer)?)
}

/// The instance of the rows, of which the first may have no offset below these.
pub(crate) fn instance_above(
    alloc: Global,
    rows: &[Row],
    lowest: &[u64],
) -> Result<Instance, Fail<BufferFault>> {
    let mut instance = Instance::new(alloc);
    for (place, row) in rows.iter().enumerate() {
        let least = if place < lowest.len() {
            lowest[place]
        } else {
            0
        };
        add_row(alloc, &mut instance, *row, least)?;
    }
    Ok(instance)
}
