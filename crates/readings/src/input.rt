//! Reading the input.

ghost use Rattle.std.specs.Prelude.{◌≡◌, IfOk};
ghost use Rattle.dsa_outside.specs.Faults.{NoneFell};
ghost use Rattle.readings.specs.Opens.{OpensInput};

use csv_instance::{Table, read_instance};
use dsa_model::{Fail, NoMemory};
use dsa_outside::Files;
use run_course::{Content, read_file};
use run_status::{Role, Status};
use std::alloc::Global;

/// The table of the input, or the status that the run ends with.
#[derive(Drop)]
pub enum Input {
    Table(Table),
    Missing(Status),
}

/// Reads the input and the instance that it holds.
pub fn open_input<F: Files>(alloc: Global, files: &mut F, name: &str) -> Result<Input, NoMemory>
    ensures input { IfOk result (λ input. OpensInput (F.seen files.old) (F.seen files.new)
        name.now input) }
    ensures files { (F.seen files.new).held ≡ (F.seen files.old).held }
    ensures counts { NoneFell (F.seen files.old).faults (F.seen files.new).faults }
{
    let bytes = match read_file(files, Role::Input, name)? {
        Content::Bytes(bytes) => bytes,
        Content::Unreadable(status) => return Ok(Input::Missing(status)),
    };
    match read_instance(alloc, bytes.as_slice()) {
        Ok(table) => Ok(Input::Table(table)),
        Err(Fail::Fault(fault)) => Ok(Input::Missing(Status::Malformed(fault))),
        Err(Fail::NoMemory) => Err(NoMemory),
    }
}
