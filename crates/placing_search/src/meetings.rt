//! Who shares a moment with whom, in rows of bits, and what stands beside a buffer.

ghost use Rattle.std.specs.Prelude.{◌≡◌, ◌+◌, ◌<◌, ◌/◌, IfOk, length};
ghost use Rattle.placing_search.specs.Meetings.{AreMeetingsOf};

use crate::sides::Sides;
use dsa_model::{Instance, NoMemory};
use std::alloc::Global;

/// A row of bits for each buffer: those of the other buffers that share a moment with it are set.
#[derive(Drop)]
pub(crate) struct Meetings {
    /// How many words a row has.
    width: usize,
    /// The rows, one behind the other.
    words: Vec<u64>,
    /// What stands beside each buffer.
    pub(crate) sides: Sides,
}

impl Meetings {
    /// The rows and the sides of all buffers.
    pub(crate) fn of(alloc: Global, instance: &Instance) -> Result<Meetings, NoMemory>
        ensures { IfOk result (AreMeetingsOf instance.now) }
    {
        let count = instance.len();
        let width = count as usize / 64 + 1;
        let mut words = vec![in alloc; 0u64; count as usize * width]?;
        for b in 0..count {
            for c in 0..count {
                if c != b && instance.do_share(b, c) {
                    words[b as usize * width + c as usize / 64] |= 1 << (c % 64);
                }
            }
        }
        Ok(Meetings {
            width,
            words,
            sides: Sides::of(alloc, instance)?,
        })
    }

    /// The row of `b`.
    pub(crate) fn with(&self, instance: &Instance, b: u32) -> &[u64]
        requires rows { AreMeetingsOf instance.now self.now }
        requires in_range { b < length instance.now }
        ensures { length result.now ≡ length instance.now / 64 + 1 }
    {
        let from = b as usize * self.width;
        &self.words[from..from + self.width]
    }
}
