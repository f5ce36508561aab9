//! `classes`: a plan by size class.

ghost use Rattle.std.specs.Prelude.{◌≡◌, ◌+◌, IfOk, length};
ghost use Rattle.run_course.specs.Course.{Concludes};
ghost use Rattle.run_course.specs.Prepares.{outcome_of};
ghost use Rattle.planning.specs.Planning.{Plans, classes};

use csv_instance::Table;
use dsa_model::{Fail, Instance, NoMemory};
use dsa_outside::Files;
use readings::{TableCommand, conclude_input};
use run_course::{Command, Prepared, one_write, silent};
use run_status::Status;
use std::alloc::Global;
use writings::layout_file;

/// Writes the plan by size class of the input's instance to the output.
#[derive(Clone, Copy)]
pub struct Classes<'a> {
    pub input: &'a str,
    pub output: &'a str,
}

/// What is written and told of the table's instance.
fn planned<'a>(
    alloc: Global,
    words: &Classes<'a>,
    table: &Table,
    instance: &Instance,
) -> Result<Prepared<'a>, NoMemory>
    requires count { length table.now ≡ length instance.now + 1 }
    ensures { IfOk result (λ p.
        Plans words.now.output.now table.now instance.now (outcome_of p)) }
{
    let plan = match size_classes::classes(alloc, instance) {
        Ok(plan) => plan,
        Err(Fail::Fault(rough)) => {
            let buffer = rough.buffer;
            return silent(alloc, Status::NotPlain { buffer });
        }
        Err(Fail::NoMemory) => return Err(NoMemory),
    };
    let file = layout_file(alloc, table, plan.offsets.as_slice(), words.output)?;
    let status = Status::Classed {
        height: plan.height,
        load: plan.load,
    };
    one_write(alloc, file, status)
}

impl<'a> TableCommand<'a> for Classes<'a> {
    ghost after = { λ c table I. Concludes (Plans c.output.now table I) };

    fn conclude_table<F: Files>(
        &self,
        alloc: Global,
        _files: &mut F,
        table: &Table,
    ) -> Result<Prepared<'a>, NoMemory> {
        planned(alloc, self, table, table.instance())
    }
}

impl<'a> Command<'a> for Classes<'a> {
    ghost course = { λ c. classes c.input.now c.output.now };

    fn conclude<F: Files>(&self, alloc: Global, files: &mut F) -> Result<Prepared<'a>, NoMemory> {
        conclude_input(alloc, files, self.input, self)
    }
}
