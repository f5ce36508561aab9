//! `report`: what lies where at the tightest moment of a layout.

ghost use Rattle.dsa_model.specs.Limits.{number_limit};
ghost use Rattle.run_course.specs.Course.{Concludes};
ghost use Rattle.readings.specs.Judging.{judged};
ghost use Rattle.judging.specs.Judging.{ShowsLayout, report};

use csv_instance::Table;
use dsa_model::{NUMBER_LIMIT, NoMemory};
use dsa_outside::Files;
use readings::{Judged, TableCommand, conclude_input, read_judged_layout};
use run_course::{Command, Prepared, shown, silent};
use std::alloc::Global;

/// Judges the layout file against the instance of the input at the greatest capacity, and shows the
/// layout at the instance's peak.
#[derive(Clone, Copy)]
pub struct Report<'a> {
    pub input: &'a str,
    pub layout: &'a str,
}

impl<'a> TableCommand<'a> for Report<'a> {
    ghost after = { λ r table I. judged r.layout.now table I number_limit
        (λ offsets. Concludes (ShowsLayout table I offsets)) };

    fn conclude_table<F: Files>(
        &self,
        alloc: Global,
        files: &mut F,
        table: &Table,
    ) -> Result<Prepared<'a>, NoMemory> {
        match read_judged_layout(alloc, files, self.layout, table, NUMBER_LIMIT)? {
            Judged::Layout(offsets) => {
                let text = layout_report::report(alloc, table, offsets.as_slice())?;
                Ok(shown(text))
            }
            Judged::NoLayout(status) => silent(alloc, status),
        }
    }
}

impl<'a> Command<'a> for Report<'a> {
    ghost course = { λ r. report r.input.now r.layout.now };

    fn conclude<F: Files>(&self, alloc: Global, files: &mut F) -> Result<Prepared<'a>, NoMemory> {
        conclude_input(alloc, files, self.input, self)
    }
}
