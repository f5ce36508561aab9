//! The numbers that an instance is made of.

ghost use Rattle.std.specs.Prelude.{◌≡◌, ◌<◌, ◌%◌};
ghost use Rattle.make_instance.specs.Draws.{first_state, next_state};

/// The generator's modulus, the prime 2^31 - 1.
const MODULUS: u64 = 2147483647;

/// What a state is multiplied by.
const MULTIPLIER: u64 = 48271;

/// Lehmer's generator of numbers, with the modulus and the multiplier of `minstd_rand`.
#[derive(Drop)]
pub(crate) struct Draws {
    state: u64,
    ghost small: { state < 2147483647 },
}

impl Draws {
    /// The generator of a seed.
    pub(crate) fn new(seed: u64) -> Draws
        ensures { result.state ≡ first_state seed }
    {
        Draws {
            state: 1 + seed % (MODULUS - 1),
        }
    }

    /// The next number, drawn below `limit`. The caller owes a limit of at least 1.
    pub(crate) fn below(&mut self, limit: u64) -> u64
        requires { 0 < limit }
        ensures state { self.new.state ≡ next_state self.old.state }
        ensures value { result ≡ self.new.state % limit }
    {
        self.state = self.state * MULTIPLIER % MODULUS;
        self.state % limit
    }
}
