//! `upgrade`: an accepted log in version 2.

ghost use Rattle.std.specs.Prelude.{◌≡◌, IfOk};
ghost use Rattle.dsa_outside.specs.Faults.{NoneFell};
ghost use Rattle.run_course.specs.Course.{Comes};
ghost use Rattle.run_course.specs.Prepares.{outcome_of};
ghost use Rattle.readings.specs.Checking.{checked};
ghost use Rattle.checking.specs.Checking.{Upgrades, upgrade};

use csv_instance::Table;
use dsa_model::{Instance, NoMemory};
use dsa_outside::Files;
use log_text::write_log2;
use readings::{Checked, TableCommand, conclude_input, read_checked_log};
use refute_log::ClosedLog;
use run_course::{Command, Prepared, Writing, one_write, silent};
use run_status::{Role, Status};
use std::alloc::Global;

/// Checks the log in the log's file, of either version, against the instance of the input, and
/// writes its text of version 2 to the output.
#[derive(Clone, Copy)]
pub struct Upgrade<'a> {
    pub input: &'a str,
    pub log: &'a str,
    pub output: &'a str,
}

/// The text of a log in version 2, to be written.
fn second_version<'a>(
    alloc: Global,
    original: &ClosedLog,
    output: &'a str,
) -> Result<Prepared<'a>, NoMemory>
    ensures { IfOk result (λ p. Upgrades output.entry.now original.now (outcome_of p)) }
{
    let status = Status::Upgraded {
        lines: original.len(),
    };
    let file = Writing {
        role: Role::Output,
        name: output,
        bytes: write_log2(alloc, original)?,
    };
    one_write(alloc, file, status)
}

/// What is written and told once the input is open.
fn upgrade_checked<'a, F: Files>(
    alloc: Global,
    files: &mut F,
    words: &Upgrade<'a>,
    instance: &Instance,
) -> Result<Prepared<'a>, NoMemory>
    ensures comes { IfOk result (λ p. Comes (F.seen files.old) (F.seen files.new)
        (checked words.now.log.now instance.now (Upgrades words.now.output.now))
        (outcome_of p)) }
    ensures files { (F.seen files.new).held ≡ (F.seen files.old).held }
    ensures counts { NoneFell (F.seen files.old).faults (F.seen files.new).faults }
{
    match read_checked_log(alloc, files, words.log, instance)? {
        Checked::Accepted(original) => second_version(alloc, &original, words.output),
        Checked::Unaccepted(status) => silent(alloc, status),
    }
}

impl<'a> TableCommand<'a> for Upgrade<'a> {
    ghost after = { λ u _ I. checked u.log.now I (Upgrades u.output.now) };

    fn conclude_table<F: Files>(
        &self,
        alloc: Global,
        files: &mut F,
        table: &Table,
    ) -> Result<Prepared<'a>, NoMemory> {
        upgrade_checked(alloc, files, self, table.instance())
    }
}

impl<'a> Command<'a> for Upgrade<'a> {
    ghost course = { λ u. upgrade u.input.now u.log.now u.output.now };

    fn conclude<F: Files>(&self, alloc: Global, files: &mut F) -> Result<Prepared<'a>, NoMemory> {
        conclude_input(alloc, files, self.input, self)
    }
}
