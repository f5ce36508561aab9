//! A skyline stands for the last one of its claims.

ghost use Rattle.std.specs.Prelude.{◌≡◌, ◌↔◌, ◌<◌, ◌^◌, IsTrue};
ghost use Rattle.dsa_terms.specs.Claims.{up};
ghost use Rattle.canonical_order.specs.Claims.{HasBuffer, entry_of};
ghost use Rattle.canonical_order.specs.Stands.{Stands};
ghost use Rattle.skyline.specs.Skies.{last_claim};

use crate::Skyline;
use canonical_order::Lows;
use dsa_model::Instance;

impl Lows for Skyline<'_> {
    ghost subject = { λ s. s.instance };

    ghost claim = { λ s. last_claim s.claims };

    fn instance(&self) -> &Instance {
        self.lent()
    }

    fn is_free(&self, b: u32) -> bool {
        self.has(b)
    }

    /// The least multiple of the buffer's alignment at or above its bound, in bytes. The buffer is
    /// in the last claim.
    fn low(&self, b: u32) -> u64
        requires { HasBuffer (last_claim self.now.claims) b }
        ensures value { result ≡ up self.now.instance (entry_of (last_claim self.now.claims) b) }
        ensures limit { result < 2 ^ 62 }
        ensures stands { Stands self.now.instance (last_claim self.now.claims) }
        ensures low { result < 2 ^ 54 }
    {
        self.least_offset(b)
    }
}
