//! Which buffers a claim has, as bits.

use line_index::bit_of;

/// For each bit how many buffers of a claim it stands for, and the bits that stand for none. No
/// clause hangs on it.
#[derive(Drop)]
pub(crate) struct Present {
    counts: [u32; 64],
    missing: u64,
}

impl Present {
    /// Those of a claim of the buffers.
    pub(crate) fn of(buffers: &[u32]) -> Present {
        let mut present = Present {
            counts: [0; 64],
            missing: u64::MAX,
        };
        for i in 0..buffers.len() {
            present.put_in(buffers[i]);
        }
        present
    }

    /// The claim loses the buffer.
    pub(crate) fn take_out(&mut self, b: u32) {
        self.missing = self.missing_without(b);
        let count = &mut self.counts[(b % 64) as usize];
        *count = count.saturating_sub(1);
    }

    /// The claim has the buffer again.
    pub(crate) fn put_in(&mut self, b: u32) {
        self.missing &= !bit_of(b);
        let count = &mut self.counts[(b % 64) as usize];
        *count = count.saturating_add(1);
    }

    /// The bits that stand for no buffer of the claim but b.
    pub(crate) fn missing_without(&self, b: u32) -> u64 {
        if self.counts[(b % 64) as usize] > 1 {
            self.missing
        } else {
            self.missing | bit_of(b)
        }
    }
}
