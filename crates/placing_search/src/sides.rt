//! What stands beside a buffer in time.

ghost use Rattle.std.specs.Prelude.{◌≤◌, IfOk};
ghost use Rattle.placing_search.specs.Sides.{AreSidesOf};

use dsa_model::{Instance, NoMemory};
use std::alloc::Global;

/// Time in columns, from each moment at which a buffer starts or ends to the next, with one before
/// the first and one after the last. Gaps count as if the buffer were live there.
#[derive(Drop)]
pub(crate) struct Sides {
    /// For each buffer, by number, the column before its first.
    pub(crate) left: Vec<usize>,
    /// For each buffer, by number, the column after its last.
    pub(crate) right: Vec<usize>,
    /// How high the columns are before a buffer is stacked, in bytes: 0 where one has to stand
    /// there, and above all buffers where none has.
    pub(crate) bare: Vec<u64>,
    /// The sum of the sizes of the buffers without gaps in each column, in bytes.
    pub(crate) loads: Vec<u64>,
}

/// A height above that of all stacks, in bytes.
const WALL: u64 = 1 << 62;

/// The moments at which buffers start or end, rising, each once.
fn ends_of(alloc: Global, instance: &Instance) -> Result<Vec<u64>, NoMemory> {
    let mut ends = Vec::new(alloc);
    for b in 0..instance.len() {
        ends.push(instance.buffer(b).lower())?;
        ends.push(instance.buffer(b).upper())?;
    }
    ends.sort_unstable();
    ends.dedup();
    Ok(ends)
}

/// How many of the moments are before this one, at most `limit`.
fn count_before(moments: &[u64], moment: u64, limit: usize) -> usize
    ensures { result ≤ limit }
{
    moments.partition_point(|m| *m < moment).min(limit)
}

impl Sides {
    /// The sides of all buffers.
    pub(crate) fn of(alloc: Global, instance: &Instance) -> Result<Sides, NoMemory>
        ensures { IfOk result (AreSidesOf instance.now) }
    {
        let count = instance.len() as usize;
        let ends = ends_of(alloc, instance)?;
        let mut left = vec![in alloc; 0usize; count]?;
        let mut right = vec![in alloc; 0usize; count]?;
        let mut bare = vec![in alloc; WALL; 2 * count + 2]?;
        let mut loads = vec![in alloc; 0u64; 2 * count + 2]?;
        for b in 0..instance.len() {
            let buffer = instance.buffer(b);
            let before = count_before(&ends, buffer.lower(), 2 * count);
            let after = count_before(&ends, buffer.upper(), 2 * count) + 1;
            left[b as usize] = before;
            right[b as usize] = after;
            let load = if buffer.gaps().is_empty() {
                buffer.size()
            } else {
                0
            };
            for column in before + 1..after {
                bare[column] = 0;
                loads[column] = loads[column].saturating_add(load);
            }
        }
        Ok(Sides {
            left,
            right,
            bare,
            loads,
        })
    }
}
