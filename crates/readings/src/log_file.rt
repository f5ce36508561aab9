//! Reading and checking a log's file.

ghost use Rattle.std.specs.Prelude.{◌≡◌, IfOk};
ghost use Rattle.dsa_outside.specs.Faults.{NoneFell};
ghost use Rattle.readings.specs.GivenLogs.{ChecksLog};

use dsa_model::{Fail, Instance, NoMemory};
use dsa_outside::Files;
use log_check::check;
use log_text::read_log;
use refute_log::ClosedLog;
use run_course::{Content, read_file};
use run_status::{LogCause, Role, Status};
use std::alloc::Global;

/// The log that a file says, accepted for the instance, or the status that the run ends with.
#[derive(Drop)]
pub enum Checked {
    Accepted(ClosedLog),
    Unaccepted(Status),
}

/// Reads the log that a file says, in either version, and checks it against the instance.
pub fn read_checked_log<F: Files>(
    alloc: Global,
    files: &mut F,
    name: &str,
    instance: &Instance,
) -> Result<Checked, NoMemory>
    ensures checked { IfOk result (ChecksLog (F.seen files.old) (F.seen files.new)
        name.now instance.now) }
    ensures files { (F.seen files.new).held ≡ (F.seen files.old).held }
    ensures counts { NoneFell (F.seen files.old).faults (F.seen files.new).faults }
{
    let bytes = match read_file(files, Role::Log, name)? {
        Content::Bytes(bytes) => bytes,
        Content::Unreadable(status) => return Ok(Checked::Unaccepted(status)),
    };
    let raw = match read_log(alloc, bytes.as_slice()) {
        Ok(raw) => raw,
        Err(Fail::Fault(fault)) => {
            let status = Status::LogRefused(LogCause::Text(fault));
            return Ok(Checked::Unaccepted(status));
        }
        Err(Fail::NoMemory) => return Err(NoMemory),
    };
    match check(alloc, instance, raw) {
        Ok(log) => Ok(Checked::Accepted(log)),
        Err(Fail::Fault(fault)) => {
            let status = Status::LogRefused(LogCause::Check(fault));
            Ok(Checked::Unaccepted(status))
        }
        Err(Fail::NoMemory) => Err(NoMemory),
    }
}
