//! The moments of two buffers.

ghost use Rattle.std.specs.Prelude.{◌≡◌, ◌↔◌, is_some, IsTrue};
ghost use Rattle.dsa_terms.specs.Buffers.{HaveSameMoments, do_share, have_same_moments};
ghost use Rattle.dsa_model.specs.Moments.{IsLeastMoment, are_live};

use crate::Buffer;
use crate::live_ranges::first_in_both;

impl Buffer {
    /// The least moment at which both buffers are live; none exactly where there is no such moment.
    /// It goes once over the live ranges of both, and not through the moments.
    pub fn first_common(&self, other: &Buffer) -> Option<u64>
        ensures moment { IsLeastMoment (are_live self.now other.now) 0 result }
        ensures shared { is_some result ≡ do_share self.now other.now }
    {
        if self.upper() <= other.lower() || other.upper() <= self.lower() {
            return None;
        }
        first_in_both(self.live(), other.live())
    }

    /// Whether both buffers are live at the same moments, however their gaps are written.
    pub fn same_times(&self, other: &Buffer) -> bool
        ensures same { IsTrue result ↔ HaveSameMoments self.now other.now }
        ensures test { result ≡ have_same_moments self.now other.now }
    {
        self.live() == other.live()
    }
}
