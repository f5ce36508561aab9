//! Numbers by chance.

ghost use Rattle.std.specs.Prelude.{◌<◌};

/// The generator's modulus, the prime 2^31 - 1.
const MODULUS: u64 = 2147483647;

/// What a state is multiplied by.
const MULTIPLIER: u64 = 48271;

/// Lehmer's generator of numbers, with the modulus and the multiplier of `minstd_rand`. It draws
/// the same numbers each time.
#[derive(Drop)]
pub(crate) struct Draws {
    state: u64,
    ghost small: { state < 2147483647 },
}

impl Draws {
    /// The generator before its first draw.
    pub(crate) fn new() -> Draws {
        Draws { state: 1 }
    }

    /// The next number, drawn below `limit`. The caller owes a limit of at least 1.
    pub(crate) fn below(&mut self, limit: usize) -> usize
        requires { 0 < limit }
        ensures { result < limit }
    {
        self.state = self.state * MULTIPLIER % MODULUS;
        self.state as usize % limit
    }
}
