//! Files in memory that never fail.

ghost use Rattle.std.specs.Prelude.{◌≡◌, ◌≤◌, ◌↔◌, length, take, Some, None, IfOk, OnOk, OnErr, IsErrOf};
ghost use Rattle.std.specs.Option.{option_copied, option_map};
ghost use Rattle.std.specs.FinMap as finite;
ghost use Rattle.dsa_outside.specs.Held.{without_file};

use crate::store::Store;
use crate::{FileFault, Files};
use dsa_model::NoMemory;
use std::alloc::Global;
use std::marker::Model;

/// Files in memory, of which each call succeeds, but for a read of a file that is not there. Every
/// name's number of faults is always 0. Seen as a finite map from names to bytes.
#[derive(Drop)]
pub struct SoundFiles {
    store: Store,
}

impl Model for SoundFiles {
    ghost use Rattle.dsa_outside.specs.Held.{FileMap};
    ghost use Rattle.dsa_outside.specs.MemoryState.{file_map_code};

    ghost Value = { FileMap };

    ghost coded = { file_map_code };

    ghost view = { λ s. s.store };
}

impl SoundFiles {
    /// No files. It takes no memory; later calls take it from `alloc`.
    pub fn new(alloc: Global) -> SoundFiles
        ensures { result ≡ finite.empty }
    {
        SoundFiles {
            store: Store::new(alloc),
        }
    }

    /// Puts these bytes under the name, in the place of what it held. After `NoMemory` all is as it
    /// was.
    pub fn insert(&mut self, name: &str, bytes: &[u8]) -> Result<(), NoMemory>
        ensures held { OnOk result (self.new ≡ finite.insert self.old name.now bytes.now) }
        ensures unchanged { OnErr result (self.new ≡ self.old) }
    {
        self.store.set(name, bytes)
    }

    /// The bytes under a name, and `None` exactly where it is not there. It takes no memory.
    pub fn get(&self, name: &str) -> Option<&[u8]>
        ensures { option_copied result ≡ finite.get self.now name.now }
    {
        self.store.get(name)
    }
}

impl Files for SoundFiles {
    ghost seen = { λ s. record { held = Some s; faults = λ _. 0 } };

    fn read(&mut self, name: &str, most: u64) -> Result<Vec<u8>, FileFault>
        ensures bytes { IfOk result (λ bytes.
            option_map (take most) (finite.get self.old name.now) ≡ Some bytes.items) }
        ensures length { IfOk result (λ bytes. length bytes.items ≤ most) }
        ensures failed { IsErrOf result FileFault.Failed ↔ (finite.get self.old name.now ≡ None) }
        ensures unchanged { self.new ≡ self.old }
    {
        self.store.read(name, most)
    }

    fn write(&mut self, name: &str, bytes: &[u8]) -> Result<(), FileFault>
        ensures written { OnOk result (self.new ≡ finite.insert self.old name.now bytes.now) }
        ensures others { without_file (Some self.new) name.now
            ≡ without_file (Some self.old) name.now }
        ensures sound { ¬ IsErrOf result FileFault.Failed }
        ensures unchanged { OnErr result (self.new ≡ self.old) }
    {
        Ok(self.store.set(name, bytes)?)
    }
}
