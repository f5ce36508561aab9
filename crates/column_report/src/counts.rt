//! How many buffers of an instance ask for more than a size and a lifetime.

ghost use Rattle.std.specs.Prelude.{◌≡◌, IfOk, string_bytes};
ghost use Rattle.column_report.specs.Counts.{counts_line, counts_of};

use dsa_model::{BUFFER_LIMIT, Instance, NoMemory};
use std::alloc::Global;

/// How many buffers an instance has, and how many of them ask for something more.
#[derive(Clone, Copy)]
pub(crate) struct Counts {
    /// How many there are.
    pub(crate) buffers: u32,
    /// How many have an alignment above 1.
    pub(crate) aligned: u32,
    /// How many have a gap.
    pub(crate) gaps: u32,
    /// How many have a lowest above 0.
    pub(crate) lowest: u32,
}

/// The counts of an instance.
pub(crate) fn counts_of(instance: &Instance) -> Counts
    ensures { result ≡ counts_of instance.now }
{
    let mut aligned = 0;
    let mut gaps = 0;
    let mut lowest = 0;
    for b in 0..instance.len() {
        let buffer = instance.buffer(b);
        aligned += u32::from(buffer.alignment() > 1);
        gaps += u32::from(!buffer.gaps().is_empty());
        lowest += u32::from(buffer.lowest() > 0);
    }
    Counts {
        buffers: instance.len(),
        aligned,
        gaps,
        lowest,
    }
}

/// The line of the counts.
pub(crate) fn counts_line(alloc: Global, counts: &Counts) -> Result<String, NoMemory>
    ensures { IfOk result (λ line. string_bytes line ≡ counts_line counts.now) }
{
    let Counts {
        buffers,
        aligned,
        gaps,
        lowest,
    } = *counts;
    let text = format!(in alloc;
        "buffers {buffers} of {BUFFER_LIMIT} aligned {aligned} gaps {gaps} lowest {lowest}\n"
    )?;
    Ok(text)
}
