//! Instances for tests, and how tests look at what is made of them.

ghost use Rattle.std.specs.Prelude.{◌≤◌, length};

use dsa_model::{BUFFER_LIMIT, Buffer, BufferFault, Fail, Instance};
use std::alloc::Global;

/// A buffer by its lower, its upper, its size and its alignment.
pub(crate) type Row = (u32, u32, u32, u32);

/// The five buffers of the first example, of one size: three of them up to moment 9, and two after
/// it.
pub(crate) const FIVE: &[Row] = &[
    (0, 3, 4, 1),
    (3, 9, 4, 1),
    (0, 9, 4, 1),
    (9, 21, 4, 1),
    (0, 21, 4, 1),
];

/// Three buffers that are live together, two of them alike.
pub(crate) const THREE: &[Row] = &[(0, 1, 1, 2), (0, 1, 1, 2), (0, 1, 2, 1)];

/// One buffer alone, and then three.
pub(crate) const ONE_THEN_THREE: &[Row] = &[(0, 2, 1, 1), (2, 3, 1, 2), (2, 3, 1, 2), (2, 3, 2, 1)];

/// The instance of these buffers.
pub(crate) fn instance_of(alloc: Global, rows: &[Row]) -> Result<Instance, Fail<BufferFault>> {
    with_gaps(alloc, rows, 0, &[])
}

/// The same, in which buffer `holed` has gaps, 64 at most.
pub(crate) fn with_gaps(
    alloc: Global,
    rows: &[Row],
    holed: u32,
    gaps: &[(u64, u64)],
) -> Result<Instance, Fail<BufferFault>> {
    if gaps.len() > 64 {
        return Err(Fail::NoMemory);
    }
    let mut instance = Instance::new(alloc);
    for row in rows {
        let own = if instance.len() == holed { gaps } else { &[] };
        add(alloc, &mut instance, *row, own, 0)?;
    }
    Ok(instance)
}

/// Puts the buffer of the row last, with these gaps and this lowest, where there is room for one
/// more.
pub(crate) fn add(
    alloc: Global,
    instance: &mut Instance,
    row: Row,
    gaps: &[(u64, u64)],
    lowest: u64,
) -> Result<(), Fail<BufferFault>>
    requires { length gaps.now ≤ 64 }
{
    let (lower, upper, size, alignment) = row;
    let (lower, upper) = (lower as u64, upper as u64);
    let (size, alignment) = (size as u64, alignment as u64);
    let buffer = Buffer::new(alloc, lower, upper, size, alignment, gaps, lowest)?;
    if instance.len() < BUFFER_LIMIT {
        instance.push(buffer)?;
    }
    Ok(())
}

/// Whether a list was made, and is this one.
pub(crate) fn is_list(made: Option<Vec<u64>>, want: &[u64]) -> bool {
    match made {
        Some(list) => list.as_slice() == want,
        None => false,
    }
}

/// Whether a text was made, and is this one.
pub(crate) fn is_text(made: Option<Vec<u8>>, want: &[u8]) -> bool {
    match made {
        Some(text) => text.as_slice() == want,
        None => false,
    }
}

/// Whether a fault's text was made, and is this one, which is empty where there is no fault.
pub(crate) fn is_told(made: Option<String>, want: &str) -> bool {
    match made {
        Some(text) => text.as_str() == want,
        None => false,
    }
}
