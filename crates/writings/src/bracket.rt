//! The files of a bracket.

ghost use Rattle.std.specs.Prelude.{◌≡◌, ◌+◌, IfOk, Some, length};
ghost use Rattle.run_course.specs.Course.{writes};
ghost use Rattle.run_course.specs.Prepares.{outcome_of};
ghost use Rattle.writings.specs.Answers.{AllReadBack, answer_files};
ghost use Rattle.writings.specs.Named.{names_of};

use crate::files::{layout_file, log_file};
use crate::names::Names;
use csv_instance::Table;
use dsa_model::NoMemory;
use min_capacity::Bracket;
use run_course::{Prepared, one_write, two_writes};
use run_status::Status;
use std::alloc::Global;

/// The bracket's layout for the output and its log, where there is one, for the log's file, and the
/// status that is told once they are written.
///
/// The caller owes as many offsets as the table has rows after its header.
pub fn both_files<'a>(
    alloc: Global,
    table: &Table,
    bracket: &Bracket,
    names: &Names<'a>,
    status: Status,
) -> Result<Prepared<'a>, NoMemory>
    requires { length table.now ≡ length bracket.now.layout.items + 1 }
    ensures files { IfOk result (λ p. outcome_of p ≡ writes (answer_files (names_of names.now)
        table.now (Some bracket.now.layout.items) bracket.now.log) status) }
    ensures readable { IfOk result (λ _. AllReadBack bracket.now.log) }
{
    let layout = layout_file(alloc, table, bracket.layout.as_slice(), names.output)?;
    match &bracket.log {
        Some(refutation) => {
            let refuted = log_file(alloc, refutation, names.log)?;
            two_writes(alloc, layout, refuted, status)
        }
        None => one_write(alloc, layout, status),
    }
}
