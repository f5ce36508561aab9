//! Reading and judging a layout file.

ghost use Rattle.std.specs.Prelude.{◌≡◌, IfOk};
ghost use Rattle.dsa_outside.specs.Faults.{NoneFell};
ghost use Rattle.readings.specs.GivenLayouts.{JudgesTable};

use csv_instance::{Table, read_offsets};
use dsa_model::{Fail, NoMemory, judge};
use dsa_outside::Files;
use run_course::{Content, read_file};
use run_status::{Role, Status, WrongCause};
use std::alloc::Global;

/// The offsets of a file, a layout at the capacity, or the status that the run ends with.
#[derive(Drop)]
pub enum Judged {
    Layout(Vec<u64>),
    NoLayout(Status),
}

/// Reads the layout that a file gives the table's instance and judges it at the capacity, in bytes.
pub fn read_judged_layout<F: Files>(
    alloc: Global,
    files: &mut F,
    name: &str,
    table: &Table,
    capacity: u64,
) -> Result<Judged, NoMemory>
    ensures judged { IfOk result (JudgesTable (F.seen files.old) (F.seen files.new)
        name.now table.now capacity) }
    ensures files { (F.seen files.new).held ≡ (F.seen files.old).held }
    ensures counts { NoneFell (F.seen files.old).faults (F.seen files.new).faults }
{
    let instance = table.instance();
    let bytes = match read_file(files, Role::Layout, name)? {
        Content::Bytes(bytes) => bytes,
        Content::Unreadable(status) => return Ok(Judged::NoLayout(status)),
    };
    let offsets = match read_offsets(alloc, table, bytes.as_slice()) {
        Ok(offsets) => offsets,
        Err(Fail::Fault(fault)) => {
            let status = Status::Wrong(WrongCause::Offsets(fault));
            return Ok(Judged::NoLayout(status));
        }
        Err(Fail::NoMemory) => return Err(NoMemory),
    };
    match judge(instance, capacity, offsets.as_slice()) {
        Ok(()) => Ok(Judged::Layout(offsets)),
        Err(fault) => Ok(Judged::NoLayout(Status::Wrong(WrongCause::Layout(fault)))),
    }
}
