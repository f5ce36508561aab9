//! `trim`: the needed lines of an accepted log alone.

ghost use Rattle.std.specs.Prelude.{◌≡◌, IfOk};
ghost use Rattle.dsa_terms.specs.Logs.{IsAccepted};
ghost use Rattle.dsa_outside.specs.Faults.{NoneFell};
ghost use Rattle.run_course.specs.Course.{Comes};
ghost use Rattle.run_course.specs.Prepares.{outcome_of};
ghost use Rattle.readings.specs.Checking.{checked};
ghost use Rattle.checking.specs.Checking.{Trims, trim};

use csv_instance::Table;
use dsa_model::{Instance, NoMemory};
use dsa_outside::Files;
use log_text::write_log;
use readings::{Checked, TableCommand, conclude_input, read_checked_log};
use refute_log::ClosedLog;
use run_course::{Command, Prepared, Writing, one_write, silent};
use run_status::{Role, Status};
use std::alloc::Global;

/// Checks the log in the log's file against the instance of the input, and writes the text of its
/// needed lines to the output.
#[derive(Clone, Copy)]
pub struct Trim<'a> {
    pub input: &'a str,
    pub log: &'a str,
    pub output: &'a str,
}

/// The text of an accepted log's needed lines, to be written. The caller owes that the log is
/// accepted for the instance.
fn needed_lines<'a>(
    alloc: Global,
    instance: &Instance,
    original: &ClosedLog,
    output: &'a str,
) -> Result<Prepared<'a>, NoMemory>
    requires { IsAccepted instance.now original.now }
    ensures { IfOk result (λ p. Trims output.entry.now instance.now original.now
        (outcome_of p)) }
{
    let trimmed = log_trim::trim(alloc, instance, original)?;
    let status = Status::Trimmed {
        before: original.len(),
        after: trimmed.len(),
    };
    let file = Writing {
        role: Role::Output,
        name: output,
        bytes: write_log(alloc, &trimmed)?,
    };
    one_write(alloc, file, status)
}

/// What is written and told once the input is open.
fn trim_checked<'a, F: Files>(
    alloc: Global,
    files: &mut F,
    words: &Trim<'a>,
    instance: &Instance,
) -> Result<Prepared<'a>, NoMemory>
    ensures comes { IfOk result (λ p. Comes (F.seen files.old) (F.seen files.new)
        (checked words.now.log.now instance.now (Trims words.now.output.now instance.now))
        (outcome_of p)) }
    ensures files { (F.seen files.new).held ≡ (F.seen files.old).held }
    ensures counts { NoneFell (F.seen files.old).faults (F.seen files.new).faults }
{
    match read_checked_log(alloc, files, words.log, instance)? {
        Checked::Accepted(original) => needed_lines(alloc, instance, &original, words.output),
        Checked::Unaccepted(status) => silent(alloc, status),
    }
}

impl<'a> TableCommand<'a> for Trim<'a> {
    ghost after = { λ t _ I. checked t.log.now I (Trims t.output.now I) };

    fn conclude_table<F: Files>(
        &self,
        alloc: Global,
        files: &mut F,
        table: &Table,
    ) -> Result<Prepared<'a>, NoMemory> {
        trim_checked(alloc, files, self, table.instance())
    }
}

impl<'a> Command<'a> for Trim<'a> {
    ghost course = { λ t. trim t.input.now t.log.now t.output.now };

    fn conclude<F: Files>(&self, alloc: Global, files: &mut F) -> Result<Prepared<'a>, NoMemory> {
        conclude_input(alloc, files, self.input, self)
    }
}
