//! A sink of bytes as the planner sees it.

ghost use Rattle.std.specs.Prelude.{◌≡◌, ◌≤◌, ℕ, take, OnOk, IsErrOf};
ghost use Rattle.dsa_outside.specs.Held.{with_text};
ghost use Rattle.dsa_outside.specs.Seen.{SinkSeen};
ghost use Rattle.dsa_model.specs.Counts.{Rose};

use crate::SinkFault;

/// Where the printed bytes go. Two meanings tell what a call did: the bytes that the sink has
/// taken, where an implementation tells them, and a number that never falls and rises where calls
/// fail.
pub trait Sink {
    /// The bytes that were put, where they are told, and how often a call has failed.
    ghost seen: { Self → SinkSeen };

    /// Appends the bytes.
    ///
    /// `Failed` comes only where the number of faults rose, and the sink has then taken some of the
    /// first bytes, or none. `NoMemory` leaves all as it was.
    fn put(&mut self, bytes: &[u8]) -> Result<(), SinkFault>
        ensures put { OnOk result ((seen self.new).content
            ≡ with_text (seen self.old).content bytes.now) }
        ensures prefix { IsErrOf result SinkFault.Failed →
            (count : ℕ) × ((seen self.new).content
            ≡ with_text (seen self.old).content (take count bytes.now)) }
        ensures failed { IsErrOf result SinkFault.Failed →
            Rose (seen self.old).faults (seen self.new).faults }
        ensures no_memory { IsErrOf result SinkFault.NoMemory →
            (seen self.new).content ≡ (seen self.old).content }
        ensures no_memory_count { IsErrOf result SinkFault.NoMemory →
            (seen self.new).faults ≡ (seen self.old).faults }
        ensures count { (seen self.old).faults ≤ (seen self.new).faults };
}
