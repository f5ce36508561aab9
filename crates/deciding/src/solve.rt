//! `solve`: a layout within a capacity, or a log by which there is none.

ghost use Rattle.std.specs.Prelude.{◌≡◌, ◌+◌, ◌≤◌, IfOk, length};
ghost use Rattle.dsa_model.specs.Limits.{number_limit};
ghost use Rattle.run_course.specs.Course.{Concludes};
ghost use Rattle.run_course.specs.Prepares.{outcome_of};
ghost use Rattle.writings.specs.Named.{names_of};
ghost use Rattle.deciding.specs.Deciding.{Solves, solve};

use csv_instance::Table;
use dsa_model::{Instance, NoMemory};
use dsa_outside::Files;
use planner::{Decision, plan};
use readings::{TableCommand, conclude_input};
use run_course::{Command, Prepared, one_write};
use run_status::Status;
use std::alloc::Global;
use writings::{Names, both_files, layout_file, log_file};

/// Decides the capacity (in bytes, at most 2^60) for the instance of the input, within the steps
/// where a number is given, and writes the layout or the log, or both where the steps run out.
#[derive(Clone, Copy)]
pub struct Solve<'a> {
    pub capacity: u64,
    pub steps: Option<u64>,
    pub names: Names<'a>,
}

/// What is written and told of the table's instance.
fn solved<'a>(
    alloc: Global,
    words: &Solve<'a>,
    table: &Table,
    instance: &Instance,
) -> Result<Prepared<'a>, NoMemory>
    requires capacity { words.now.capacity ≤ number_limit }
    requires count { length table.now ≡ length instance.now + 1 }
    ensures { IfOk result (λ p.
        Solves words.now.capacity words.now.steps (names_of words.now.names)
        table.now instance.now (outcome_of p)) }
{
    let _count = instance.len();
    let capacity = words.capacity;
    let names = &words.names;
    match plan(alloc, instance, capacity, words.steps)? {
        Decision::Layout(offsets) => {
            let file = layout_file(alloc, table, offsets.as_slice(), names.output)?;
            one_write(alloc, file, Status::Feasible { capacity })
        }
        Decision::Refuted(refutation) => {
            let file = log_file(alloc, &refutation, names.log)?;
            one_write(alloc, file, Status::Infeasible { capacity })
        }
        Decision::Open(bracket) => {
            let status = Status::Open {
                low: bracket.low,
                high: bracket.high,
            };
            both_files(alloc, table, &bracket, names, status)
        }
    }
}

impl<'a> TableCommand<'a> for Solve<'a> {
    ghost after = { λ s table I.
        Concludes (Solves s.capacity s.steps (names_of s.names) table I) };

    ghost is_known = { λ s. s.capacity ≤ number_limit };

    fn conclude_table<F: Files>(
        &self,
        alloc: Global,
        _files: &mut F,
        table: &Table,
    ) -> Result<Prepared<'a>, NoMemory> {
        solved(alloc, self, table, table.instance())
    }
}

impl<'a> Command<'a> for Solve<'a> {
    ghost course = { λ s. solve s.capacity s.steps (names_of s.names) };

    ghost is_asked = { λ s. s.capacity ≤ number_limit };

    fn conclude<F: Files>(&self, alloc: Global, files: &mut F) -> Result<Prepared<'a>, NoMemory> {
        conclude_input(alloc, files, self.names.input, self)
    }
}
