//! Bits in a row, packed into words.

ghost use Rattle.std.specs.Prelude.{◌≡◌, ℕ, ◌<◌, ◌/◌, ◌==◌, ◌&&◌, ◌||◌, false, length, IfOk};
ghost use Rattle.dsa_model.specs.Bits.{Reaches, is_set};

use crate::NoMemory;
use std::alloc::Global;

/// A bit for each place from 0 to a last one, in words of 64 bits.
#[derive(Drop)]
pub(crate) struct Bits {
    words: Vec<u64>,
}

impl Bits {
    /// The bits of the places from 0 to `last`. None is set.
    pub(crate) fn up_to(alloc: Global, last: usize) -> Result<Bits, NoMemory>
        ensures reaches { IfOk result (λ bits. Reaches bits.words.items last) }
        ensures none { IfOk result (λ bits. (p : ℕ) → is_set bits.words.items p ≡ false) }
    {
        let words = vec![in alloc; 0u64; last / 64 + 1]?;
        Ok(Bits { words })
    }

    /// Whether the bit of the place is set.
    pub(crate) fn get(&self, place: usize) -> bool
        requires { Reaches self.now.words.items place }
        ensures { result ≡ is_set self.now.words.items place }
    {
        (self.words[place / 64] >> (place % 64)) & 1 == 1
    }

    /// Sets the bit of the place where `bit` is true.
    pub(crate) fn add(&mut self, place: usize, bit: bool)
        requires { Reaches self.old.words.items place }
        ensures same { length self.new.words.items ≡ length self.old.words.items }
        ensures value { (p : ℕ) → is_set self.new.words.items p
            ≡ (is_set self.old.words.items p || (p == place && bit)) }
    {
        self.words[place / 64] |= (bit as u64) << (place % 64);
    }
}
