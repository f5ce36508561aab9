//! `bounds`: the facts of an instance.

ghost use Rattle.command_words.specs.declared.verb.Verb.TheVariants as verb;

use crate::InstanceReport;
use csv_instance::Table;
use dsa_model::{Instance, NoMemory};
use layout_report::bounds_report;
use planner::facts_of;
use std::alloc::Global;

/// The facts of the input's instance.
#[derive(Clone, Copy)]
pub struct Bounds;

impl InstanceReport for Bounds {
    ghost verb = { verb.Bounds };

    fn text(
        &self,
        alloc: Global,
        _table: &Table,
        instance: &Instance,
    ) -> Result<Vec<u8>, NoMemory> {
        let facts = facts_of(alloc, instance)?;
        bounds_report(alloc, &facts)
    }
}
