//! Bytes by name, in memory.

ghost use Rattle.std.specs.Prelude.{◌≡◌, ◌≤◌, ◌↔◌, length, take, Some, None, IfOk, OnOk, OnErr, IsErrOf};
ghost use Rattle.std.specs.Option.{option_copied, option_map};
ghost use Rattle.std.specs.FinMap as finite;

use crate::FileFault;
use dsa_model::NoMemory;
use std::alloc::Global;
use std::collections::BTreeMap;
use std::marker::Model;

/// Bytes by name.
#[derive(Drop)]
pub(crate) struct Store {
    alloc: Global,
    files: BTreeMap<String, Vec<u8>>,
}

impl Model for Store {
    ghost use Rattle.dsa_outside.specs.Held.{FileMap};
    ghost use Rattle.dsa_outside.specs.MemoryState.{file_map_code, file_map};

    ghost Value = { FileMap };

    ghost coded = { file_map_code };

    ghost view = { λ s. file_map s.files };
}

impl Store {
    /// No files.
    pub(crate) fn new(alloc: Global) -> Store
        ensures { result ≡ finite.empty }
    {
        Store {
            alloc,
            files: BTreeMap::new(alloc),
        }
    }

    /// The bytes under a name.
    pub(crate) fn get(&self, name: &str) -> Option<&[u8]>
        ensures { option_copied result ≡ finite.get self.now name.now }
    {
        match self.files.get(name) {
            Some(bytes) => Some(bytes.as_slice()),
            None => None,
        }
    }

    /// A copy of the first `most` bytes under a name. `Failed`: the name is not there.
    pub(crate) fn read(&self, name: &str, most: u64) -> Result<Vec<u8>, FileFault>
        ensures bytes { IfOk result (λ bytes.
            option_map (take most) (finite.get self.now name.now) ≡ Some bytes.items) }
        ensures length { IfOk result (λ bytes. length bytes.items ≤ most) }
        ensures failed { IsErrOf result FileFault.Failed ↔ (finite.get self.now name.now ≡ None) }
    {
        match self.get(name) {
            None => Err(FileFault::Failed),
            Some(bytes) => {
                let count = (bytes.len() as u64).min(most) as usize;
                Ok(Vec::from_slice(self.alloc, &bytes[..count])?)
            }
        }
    }

    /// Puts these bytes under the name, in the place of what it held.
    pub(crate) fn set(&mut self, name: &str, bytes: &[u8]) -> Result<(), NoMemory>
        ensures ok { OnOk result (self.new ≡ finite.insert self.old name.now bytes.now) }
        ensures err { OnErr result (self.new ≡ self.old) }
    {
        let key = String::from_str(self.alloc, name)?;
        let value = Vec::from_slice(self.alloc, bytes)?;
        self.files.insert(key, value)?;
        Ok(())
    }
}
