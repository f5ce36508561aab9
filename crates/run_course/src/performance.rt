//! The course of a run.

ghost use Rattle.std.specs.Prelude.{◌≡◌, List, IfOk, OnErr};
ghost use Rattle.dsa_outside.specs.Faults.{NoneFell};
ghost use Rattle.run_course.specs.Answers.{AreBegun, Answers, Leaves, as_told};
ghost use Rattle.run_course.specs.Prepares.{outcome_of};

use crate::{Command, Prepared};
use dsa_model::NoMemory;
use dsa_outside::{FileFault, Files, Sink, SinkFault};
use run_status::{Role, Status, unwritten_line};
use std::alloc::Global;

/// Writes what is to be written, in order, up to the first write that fails, whose role is told.
fn write<F: Files>(prepared: &Prepared<'_>, files: &mut F) -> Result<Option<Role>, NoMemory>
    ensures left { IfOk result (Leaves
        (F.seen files.old) (F.seen files.new) (outcome_of prepared.now).writes) }
    ensures begun { OnErr result (AreBegun
        (F.seen files.old) (F.seen files.new) (outcome_of prepared.now).writes) }
    ensures counts { NoneFell (F.seen files.old).faults (F.seen files.new).faults }
{
    match prepared {
        Prepared::Silent(_) => Ok(None),
        Prepared::One(file, _) => match files.write(file.name, file.bytes.as_slice()) {
            Ok(()) => Ok(None),
            Err(FileFault::Failed) => Ok(Some(file.role)),
            Err(FileFault::NoMemory) => Err(NoMemory),
        },
        Prepared::Both(first, second, _) => {
            match files.write(first.name, first.bytes.as_slice()) {
                Ok(()) => match files.write(second.name, second.bytes.as_slice()) {
                    Ok(()) => Ok(None),
                    Err(FileFault::Failed) => Ok(Some(second.role)),
                    Err(FileFault::NoMemory) => Err(NoMemory),
                },
                Err(FileFault::Failed) => Ok(Some(first.role)),
                Err(FileFault::NoMemory) => Err(NoMemory),
            }
        }
    }
}

/// The status and the text that are told once all is written, or once the write of that role has
/// failed.
fn told<'a>(prepared: &'a Prepared<'_>, lost: Option<Role>) -> (Status, &'a [u8])
    ensures status { result.0 ≡ (as_told (outcome_of prepared.now) lost).status }
    ensures text { result.1.now ≡ (as_told (outcome_of prepared.now) lost).text }
{
    if let Some(role) = lost {
        return (Status::WriteFault(role), unwritten_line(role).as_bytes());
    }
    match prepared {
        Prepared::Silent(said) => (said.status, said.text.as_slice()),
        Prepared::One(_, said) => (said.status, said.text.as_slice()),
        Prepared::Both(_, _, said) => (said.status, said.text.as_slice()),
    }
}

/// Does what the command asks for, with these files, and prints one text last: its status says how
/// it ended. It is not put into its caller: each run would touch as much of the stack as the
/// command that takes the most of it.
#[inline(never)]
pub fn perform<'a, C: Command<'a>, F: Files, S: Sink>(
    alloc: Global,
    command: &C,
    files: &mut F,
    out: &mut S,
) -> Status
    requires asked { C.is_asked command.now }
    ensures { Answers (C.course command.now)
        (F.seen files.old) (F.seen files.new) (S.seen out.old) (S.seen out.new) result }
{
    let prepared = match command.conclude(alloc, files) {
        Ok(prepared) => prepared,
        Err(NoMemory) => return Status::NoMemory,
    };
    let lost = match write(&prepared, files) {
        Ok(lost) => lost,
        Err(NoMemory) => return Status::NoMemory,
    };
    let (status, text) = told(&prepared, lost);
    match out.put(text) {
        Ok(()) => status,
        Err(SinkFault::Failed) => Status::PrintFault,
        Err(SinkFault::NoMemory) => Status::NoMemory,
    }
}
