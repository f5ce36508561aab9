//! Files as the planner sees them.

ghost use Rattle.std.specs.Prelude.{◌≡◌, ◌≤◌, ◌⊎◌, length, IfOk, OnOk, IsErrOf};
ghost use Rattle.dsa_outside.specs.Held.{IsReadOf, IsMissing, with_file, without_file};
ghost use Rattle.dsa_outside.specs.Seen.{FilesSeen};
ghost use Rattle.dsa_model.specs.Counts.{Rose};
ghost use Rattle.dsa_outside.specs.Faults.{NoneFell, AllStay};

use crate::FileFault;

/// Files by name. Two meanings tell what a call did: what the files hold, where an implementation
/// tells it, and a number for each name that never falls and rises where calls on that name fail.
pub trait Files {
    /// The bytes by name, where they are told, and how often calls have failed, by name.
    ghost seen: { Self → FilesSeen };

    /// The first `most` bytes of a file, or all of them where there are fewer. What is held stays.
    ///
    /// `Failed` comes only where that name's number rose, or where it is told that the name holds
    /// nothing. Of the other names' numbers it tells that they did not fall. `NoMemory` leaves all
    /// as it was.
    fn read(&mut self, name: &str, most: u64) -> Result<Vec<u8>, FileFault>
        ensures bytes { IfOk result (λ bytes. IsReadOf
            (seen self.old).held name.now most bytes.items) }
        ensures length { IfOk result (λ bytes. length bytes.items ≤ most) }
        ensures files { (seen self.new).held ≡ (seen self.old).held }
        ensures failed { IsErrOf result FileFault.Failed →
            Rose ((seen self.old).faults name.now) ((seen self.new).faults name.now)
            ⊎ IsMissing (seen self.old).held name.now }
        ensures no_memory { IsErrOf result FileFault.NoMemory →
            AllStay (seen self.old).faults (seen self.new).faults }
        ensures counts { NoneFell (seen self.old).faults (seen self.new).faults };

    /// Puts these bytes in the place of what the file held. All other files stay as they are.
    ///
    /// `Failed` comes only where that name's number rose, and nothing is known then of what that
    /// file holds. Of the other names' numbers it tells that they did not fall. `NoMemory` leaves
    /// all as it was.
    fn write(&mut self, name: &str, bytes: &[u8]) -> Result<(), FileFault>
        ensures written { OnOk result
            ((seen self.new).held ≡ with_file (seen self.old).held name.now bytes.now) }
        ensures others { without_file (seen self.new).held name.now
            ≡ without_file (seen self.old).held name.now }
        ensures failed { IsErrOf result FileFault.Failed →
            Rose ((seen self.old).faults name.now) ((seen self.new).faults name.now) }
        ensures no_memory { IsErrOf result FileFault.NoMemory →
            (seen self.new).held ≡ (seen self.old).held }
        ensures no_memory_counts { IsErrOf result FileFault.NoMemory →
            AllStay (seen self.old).faults (seen self.new).faults }
        ensures counts { NoneFell (seen self.old).faults (seen self.new).faults };
}
