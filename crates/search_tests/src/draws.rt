//! Instances that are made of drawn numbers.

ghost use Rattle.std.specs.Prelude.{◌<◌};

use crate::instances::add;
use dsa_model::{Buffer, BufferFault, Fail, Instance};
use std::alloc::Global;

/// How many buffers a made instance has.
const COUNT: u64 = 9;

/// Lehmer's generator of numbers, as in the crate `make_instance`.
#[derive(Drop)]
pub(crate) struct Draws {
    state: u64,
    ghost small: { state < 2147483647 },
}

impl Draws {
    /// The numbers of a seed.
    pub(crate) fn new(seed: u64) -> Draws {
        Draws {
            state: 1 + seed % 2147483646,
        }
    }

    /// The next number, drawn below `limit`.
    pub(crate) fn below(&mut self, limit: u64) -> u64
        requires { 0 < limit }
        ensures { result < limit }
    {
        self.state = self.state * 48271 % 2147483647;
        self.state % limit
    }
}

/// The next buffer, drawn as the crate `make_instance` draws one.
fn next_buffer(alloc: Global, draws: &mut Draws) -> Result<Buffer, Fail<BufferFault>> {
    let lower = draws.below(2 * COUNT);
    let length = 1 + draws.below(16);
    let size = 1 + draws.below(64);
    let alignment = 1 + draws.below(4);
    let upper = lower + length;
    if draws.below(4) == 0 && length >= 3 {
        let gaps = [(lower + 1, upper - 1)];
        return Buffer::new(alloc, lower, upper, size, alignment, &gaps, 0);
    }
    Buffer::new(alloc, lower, upper, size, alignment, &[], 0)
}

/// The instance of a seed.
pub(crate) fn made(alloc: Global, seed: u64) -> Result<Instance, Fail<BufferFault>> {
    let mut draws = Draws::new(seed);
    let mut instance = Instance::new(alloc);
    for _ in 0..COUNT {
        add(&mut instance, next_buffer(alloc, &mut draws)?)?;
    }
    Ok(instance)
}
