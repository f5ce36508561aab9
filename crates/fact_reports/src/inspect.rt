//! `inspect`: how each column of an instance file is read.

ghost use Rattle.command_words.specs.declared.verb.Verb.TheVariants as verb;

use crate::InstanceReport;
use column_report::column_report;
use csv_instance::Table;
use dsa_model::{Instance, NoMemory};
use std::alloc::Global;

/// How each column of the input's header is read.
#[derive(Clone, Copy)]
pub struct Inspect;

impl InstanceReport for Inspect {
    ghost verb = { verb.Inspect };

    fn text(
        &self,
        alloc: Global,
        table: &Table,
        _instance: &Instance,
    ) -> Result<Vec<u8>, NoMemory> {
        column_report(alloc, table)
    }
}
