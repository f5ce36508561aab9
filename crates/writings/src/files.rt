//! Files that are to be written.

ghost use Rattle.std.specs.Prelude.{◌≡◌, ◌+◌, IfOk, length};
ghost use Rattle.run_course.specs.Prepares.{write_of};
ghost use Rattle.writings.specs.Writings.{ReadsBack, layout_file, log_file};

use csv_instance::{Table, write_layout};
use dsa_model::NoMemory;
use log_text::write_log;
use refute_log::ClosedLog;
use run_course::Writing;
use run_status::Role;
use std::alloc::Global;

/// The layout of these offsets (in bytes), for the output.
///
/// The caller owes as many offsets as the table has rows after its header.
pub fn layout_file<'a>(
    alloc: Global,
    table: &Table,
    offsets: &[u64],
    output: &'a str,
) -> Result<Writing<'a>, NoMemory>
    requires { length table.now ≡ length offsets.now + 1 }
    ensures file { IfOk result (λ file.
        write_of file ≡ layout_file output.now table.now offsets.now) }
{
    Ok(Writing {
        role: Role::Output,
        name: output,
        bytes: write_layout(alloc, table, offsets)?,
    })
}

/// The log, for its file.
pub fn log_file<'a>(alloc: Global, log: &ClosedLog, name: &'a str) -> Result<Writing<'a>, NoMemory>
    ensures file { IfOk result (λ file. write_of file ≡ log_file name.now log.now) }
    ensures readable { IfOk result (λ _. ReadsBack log.now) }
{
    Ok(Writing {
        role: Role::Log,
        name,
        bytes: write_log(alloc, log)?,
    })
}
