//! Files in memory of which chosen calls fail.

ghost use Rattle.std.specs.Prelude.{◌≡◌, ◌≤◌, ◌⊎◌, ◌↔◌, length, take, Some, None, IfOk, OnOk, OnErr, IsErrOf, IsTrue};
ghost use Rattle.std.specs.Option.{option_copied, option_map};
ghost use Rattle.std.specs.FinMap as finite;
ghost use Rattle.dsa_outside.specs.Calls.{after_call, is_due};
ghost use Rattle.dsa_outside.specs.Held.{without_file};

use crate::calls::Calls;
use crate::store::Store;
use crate::{FileFault, Files};
use dsa_model::NoMemory;
use std::alloc::Global;
use std::marker::Model;

/// Files in memory. The reads and writes whose numbers are listed fail, and so does a read of a
/// file that is not there. Seen as the files, the list of the calls that are to fail, the number of
/// the next call, and how many were made to fail, which is every name's number of faults.
#[derive(Drop)]
pub struct MemoryFiles {
    store: Store,
    calls: Calls,
}

impl Model for MemoryFiles {
    ghost use Rattle.dsa_outside.specs.MemoryState.{FilesState, files_state_code};

    ghost Value = { FilesState };

    ghost coded = { files_state_code };

    ghost view = { λ s. record { files = s.store; calls = s.calls } };
}

impl MemoryFiles {
    /// No files, and no call yet. It takes no memory; later calls take it from `alloc`.
    ///
    /// Reads and writes are counted together from 0. Those whose numbers are in `failing` fail.
    /// Every call after number 2^64 - 1 has that number too. A call that answers `NoMemory` is not
    /// counted.
    pub fn new(alloc: Global, failing: Vec<u64>) -> MemoryFiles
        ensures { result ≡ record {
          files = finite.empty;
          calls = record { failing = failing.items; next = 0; faults = 0 };
        } }
    {
        MemoryFiles {
            store: Store::new(alloc),
            calls: Calls::new(failing),
        }
    }

    /// Puts these bytes under the name, in the place of what it held. It is no call that is
    /// counted. After `NoMemory` all is as it was.
    pub fn insert(&mut self, name: &str, bytes: &[u8]) -> Result<(), NoMemory>
        ensures held { OnOk result (self.new ≡ record self.old {
          files = finite.insert self.old.files name.now bytes.now;
        }) }
        ensures unchanged { OnErr result (self.new ≡ self.old) }
    {
        self.store.set(name, bytes)
    }

    /// The bytes under a name, and `None` exactly where it is not there. It is no call that is
    /// counted, and it takes no memory.
    pub fn get(&self, name: &str) -> Option<&[u8]>
        ensures { option_copied result ≡ finite.get self.now.files name.now }
    {
        self.store.get(name)
    }
}

impl Files for MemoryFiles {
    ghost seen = { λ s. record { held = Some s.files; faults = λ _. s.calls.faults } };

    fn read(&mut self, name: &str, most: u64) -> Result<Vec<u8>, FileFault>
        ensures bytes { IfOk result (λ bytes.
            option_map (take most) (finite.get self.old.files name.now) ≡ Some bytes.items) }
        ensures length { IfOk result (λ bytes. length bytes.items ≤ most) }
        ensures failed { IsErrOf result FileFault.Failed
            ↔ (IsTrue (is_due self.old.calls) ⊎ (finite.get self.old.files name.now ≡ None)) }
        ensures passed { OnOk result
            (self.new ≡ record self.old { calls = after_call self.old.calls }) }
        ensures refused { IsErrOf result FileFault.Failed →
            self.new ≡ record self.old { calls = after_call self.old.calls } }
        ensures no_memory { IsErrOf result FileFault.NoMemory → self.new ≡ self.old }
        ensures counts { self.old.calls.faults ≤ self.new.calls.faults }
    {
        let read = if self.calls.is_due() {
            Err(FileFault::Failed)
        } else {
            self.store.read(name, most)
        };
        match read {
            Err(FileFault::NoMemory) => {}
            _ => self.calls.count(),
        }
        read
    }

    fn write(&mut self, name: &str, bytes: &[u8]) -> Result<(), FileFault>
        ensures written { OnOk result (self.new ≡ record {
          files = finite.insert self.old.files name.now bytes.now;
          calls = after_call self.old.calls;
        }) }
        ensures others { without_file (Some self.new.files) name.now
            ≡ without_file (Some self.old.files) name.now }
        ensures failed { IsErrOf result FileFault.Failed ↔ IsTrue (is_due self.old.calls) }
        ensures refused { IsErrOf result FileFault.Failed →
            self.new ≡ record self.old { calls = after_call self.old.calls } }
        ensures no_memory { IsErrOf result FileFault.NoMemory → self.new ≡ self.old }
        ensures counts { self.old.calls.faults ≤ self.new.calls.faults }
    {
        if self.calls.is_due() {
            self.calls.count();
            return Err(FileFault::Failed);
        }
        self.store.set(name, bytes)?;
        self.calls.count();
        Ok(())
    }
}
