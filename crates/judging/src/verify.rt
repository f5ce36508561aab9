//! `verify`: whether offsets are a layout at a capacity.

ghost use Rattle.run_course.specs.Course.{Concludes};
ghost use Rattle.readings.specs.Judging.{judged};
ghost use Rattle.judging.specs.Judging.{TellsRight, verify};

use csv_instance::Table;
use dsa_model::NoMemory;
use dsa_outside::Files;
use readings::{Judged, TableCommand, conclude_input, read_judged_layout};
use run_course::{Command, Prepared, silent};
use run_status::Status;
use std::alloc::Global;

/// Judges at the capacity (in bytes) the layout that the layout file gives the input's instance.
#[derive(Clone, Copy)]
pub struct Verify<'a> {
    pub capacity: u64,
    pub input: &'a str,
    pub layout: &'a str,
}

impl<'a> TableCommand<'a> for Verify<'a> {
    ghost after = { λ v table I. judged v.layout.now table I v.capacity
        (λ offsets. Concludes (TellsRight I v.capacity offsets)) };

    fn conclude_table<F: Files>(
        &self,
        alloc: Global,
        files: &mut F,
        table: &Table,
    ) -> Result<Prepared<'a>, NoMemory> {
        let judged = read_judged_layout(alloc, files, self.layout, table, self.capacity)?;
        let _offsets = match judged {
            Judged::Layout(offsets) => offsets,
            Judged::NoLayout(status) => return silent(alloc, status),
        };
        silent(alloc, Status::Right)
    }
}

impl<'a> Command<'a> for Verify<'a> {
    ghost course = { λ v. verify v.capacity v.input.now v.layout.now };

    fn conclude<F: Files>(&self, alloc: Global, files: &mut F) -> Result<Prepared<'a>, NoMemory> {
        conclude_input(alloc, files, self.input, self)
    }
}
