//! The files of the system.

ghost use Rattle.std.specs.Prelude.{◌≡◌, ◌≤◌, None, IfOk, OnOk, IsErrOf, length};
ghost use Rattle.dsa_model.specs.Counts.{one_more};

use crate::disk_write::{target_of, write_file};
use crate::transfer::{counted, is_want_of_memory, read_up_to};
use crate::{FileFault, Files};
use std::alloc::Global;
use std::fs;
use std::fs::File;

/// The files of the system, by path, with a count of the reads and writes that failed. The count is
/// every name's number of faults. It stays at 2^64 - 1 once it is there. Nothing is told of what
/// the files hold.
#[derive(Drop)]
pub struct DiskFiles<'a, R: std::rt::Files> {
    rt: &'a R,
    alloc: Global,
    faults: u64,
}

impl<'a, R: std::rt::Files> DiskFiles<'a, R> {
    /// The files that the runtime gives. No call has failed. It takes no memory; later calls take
    /// it from `alloc`.
    pub fn new(rt: &'a R, alloc: Global) -> DiskFiles<'a, R>
        ensures { result.faults ≡ 0 }
    {
        DiskFiles {
            rt,
            alloc,
            faults: 0,
        }
    }
}

impl<'a, R: std::rt::Files<File = File>> Files for DiskFiles<'a, R> {
    ghost seen = { λ files. record { held = None; faults = λ _. files.faults } };

    fn read(&mut self, name: &str, most: u64) -> Result<Vec<u8>, FileFault>
        ensures length { IfOk result (λ bytes. length bytes.items ≤ most) }
        ensures failed { IsErrOf result FileFault.Failed →
            self.new.faults ≡ one_more self.old.faults }
        ensures no_memory { IsErrOf result FileFault.NoMemory → self.new.faults ≡ self.old.faults }
        ensures unchanged { OnOk result (self.new.faults ≡ self.old.faults) }
        ensures counts { self.old.faults ≤ self.new.faults }
    {
        let mut file = counted(&mut self.faults, fs::open(self.rt, name))?;
        read_up_to(self.alloc, &mut file, most, &mut self.faults)
    }

    fn write(&mut self, name: &str, bytes: &[u8]) -> Result<(), FileFault>
        ensures failed { IsErrOf result FileFault.Failed →
            self.new.faults ≡ one_more self.old.faults }
        ensures no_memory { IsErrOf result FileFault.NoMemory → self.new.faults ≡ self.old.faults }
        ensures unchanged { OnOk result (self.new.faults ≡ self.old.faults) }
        ensures counts { self.old.faults ≤ self.new.faults }
    {
        let target = target_of(self.rt, self.alloc, name);
        if is_want_of_memory(&target) {
            return Err(FileFault::NoMemory);
        }
        let target = counted(&mut self.faults, target)?;
        let written = write_file(self.rt, name, target, bytes);
        Ok(counted(&mut self.faults, written)?)
    }
}
