//! `refute`: whether a log proves that nothing fits.

ghost use Rattle.std.specs.Prelude.{◌≡◌, IfOk};
ghost use Rattle.dsa_outside.specs.Faults.{NoneFell};
ghost use Rattle.run_status.specs.declared.status.Status.TheVariants.{Accepted};
ghost use Rattle.run_course.specs.Course.{Comes, says};
ghost use Rattle.run_course.specs.Prepares.{outcome_of};
ghost use Rattle.readings.specs.Checking.{checked};
ghost use Rattle.checking.specs.Checking.{refute};

use csv_instance::Table;
use dsa_model::{Instance, NoMemory};
use dsa_outside::Files;
use readings::{Checked, TableCommand, conclude_input, read_checked_log};
use run_course::{Command, Prepared, silent};
use run_status::Status;
use std::alloc::Global;

/// Checks the log in the log's file against the instance of the input.
#[derive(Clone, Copy)]
pub struct Refute<'a> {
    pub input: &'a str,
    pub log: &'a str,
}

/// What is told once the input is open.
fn refute_checked<'a, F: Files>(
    alloc: Global,
    files: &mut F,
    words: &Refute<'a>,
    instance: &Instance,
) -> Result<Prepared<'a>, NoMemory>
    ensures comes { IfOk result (λ p. Comes (F.seen files.old) (F.seen files.new)
        (checked words.now.log.now instance.now (λ log o. o ≡ says (Accepted log.capacity)))
        (outcome_of p)) }
    ensures files { (F.seen files.new).held ≡ (F.seen files.old).held }
    ensures counts { NoneFell (F.seen files.old).faults (F.seen files.new).faults }
{
    match read_checked_log(alloc, files, words.log, instance)? {
        Checked::Accepted(log) => {
            let capacity = log.capacity();
            silent(alloc, Status::Accepted { capacity })
        }
        Checked::Unaccepted(status) => silent(alloc, status),
    }
}

impl<'a> TableCommand<'a> for Refute<'a> {
    ghost after = { λ r _ I. checked r.log.now I (λ log o. o ≡ says (Accepted log.capacity)) };

    fn conclude_table<F: Files>(
        &self,
        alloc: Global,
        files: &mut F,
        table: &Table,
    ) -> Result<Prepared<'a>, NoMemory> {
        refute_checked(alloc, files, self, table.instance())
    }
}

impl<'a> Command<'a> for Refute<'a> {
    ghost course = { λ r. refute r.input.now r.log.now };

    fn conclude<F: Files>(&self, alloc: Global, files: &mut F) -> Result<Prepared<'a>, NoMemory> {
        conclude_input(alloc, files, self.input, self)
    }
}
