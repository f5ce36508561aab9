//! Commands that print something of their instance alone.

ghost use Rattle.std.specs.Prelude.{◌≡◌, IfOk, Ok};
ghost use Rattle.csv_instance.specs.Parse.{parse};
ghost use Rattle.command_words.specs.declared.verb.Verb.{Verb};
ghost use Rattle.run_course.specs.Prepares.{outcome_of};
ghost use Rattle.fact_reports.specs.Reporting.{IsReport, ShowsReport, reporting};

use csv_instance::Table;
use dsa_model::{Instance, NoMemory};
use dsa_outside::Files;
use readings::{Input, open_input};
use run_course::{Command, Prepared, shown, silent};
use std::alloc::Global;

/// What a command prints of its instance alone. `verb` says which command it is.
pub trait InstanceReport {
    ghost verb: { Verb };

    /// The text that is printed of a table and the instance that it tells of.
    fn text(&self, alloc: Global, table: &Table, instance: &Instance) -> Result<Vec<u8>, NoMemory>
        requires parsed { parse table.now ≡ Ok instance.now }
        ensures { IfOk result (λ text. IsReport verb table.now instance.now text.items) };
}

/// Reads the input and shows the report of its instance.
#[derive(Clone, Copy)]
pub struct Reporting<'a, R> {
    pub input: &'a str,
    pub report: R,
}

/// The report of the table's instance, to be shown.
fn report_shown<'a, R: InstanceReport>(
    alloc: Global,
    report: &R,
    table: &Table,
    instance: &Instance,
) -> Result<Prepared<'a>, NoMemory>
    requires parsed { parse table.now ≡ Ok instance.now }
    ensures { IfOk result (λ p. ShowsReport R.verb table.now instance.now (outcome_of p)) }
{
    let text = report.text(alloc, table, instance)?;
    Ok(shown(text))
}

impl<'a, R: InstanceReport> Command<'a> for Reporting<'a, R> {
    ghost course = { λ c. reporting R.verb c.input.now };

    fn conclude<F: Files>(&self, alloc: Global, files: &mut F) -> Result<Prepared<'a>, NoMemory> {
        let table = match open_input(alloc, files, self.input)? {
            Input::Table(table) => table,
            Input::Missing(status) => return silent(alloc, status),
        };
        report_shown(alloc, &self.report, &table, table.instance())
    }
}
