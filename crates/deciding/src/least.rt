//! `least`: the least capacity that has a layout.

ghost use Rattle.std.specs.Prelude.{◌≡◌, ◌+◌, IfOk, length};
ghost use Rattle.run_course.specs.Course.{Concludes};
ghost use Rattle.run_course.specs.Prepares.{outcome_of};
ghost use Rattle.writings.specs.Named.{names_of};
ghost use Rattle.deciding.specs.Deciding.{Finds, least};

use csv_instance::Table;
use dsa_model::{Instance, NoMemory};
use dsa_outside::Files;
use min_capacity::Least as Found;
use planner::least_capacity;
use readings::{TableCommand, conclude_input};
use run_course::{Command, Prepared};
use run_status::Status;
use std::alloc::Global;
use writings::{Names, both_files};

/// Finds the least capacity for the instance of the input, within the steps where a number is
/// given, and writes its layout and the log by which one byte less is too little, unless it is 0.
#[derive(Clone, Copy)]
pub struct Least<'a> {
    pub steps: Option<u64>,
    pub names: Names<'a>,
}

/// What is written and told of the table's instance.
fn found<'a>(
    alloc: Global,
    words: &Least<'a>,
    table: &Table,
    instance: &Instance,
) -> Result<Prepared<'a>, NoMemory>
    requires count { length table.now ≡ length instance.now + 1 }
    ensures { IfOk result (λ p. Finds words.now.steps (names_of words.now.names)
        table.now instance.now (outcome_of p)) }
{
    let names = &words.names;
    match least_capacity(alloc, instance, words.steps)? {
        Found::Exact(bracket) => {
            let status = Status::Least {
                capacity: bracket.high,
            };
            both_files(alloc, table, &bracket, names, status)
        }
        Found::Open(bracket) => {
            let status = Status::Open {
                low: bracket.low,
                high: bracket.high,
            };
            both_files(alloc, table, &bracket, names, status)
        }
    }
}

impl<'a> TableCommand<'a> for Least<'a> {
    ghost after = { λ l table I. Concludes (Finds l.steps (names_of l.names) table I) };

    fn conclude_table<F: Files>(
        &self,
        alloc: Global,
        _files: &mut F,
        table: &Table,
    ) -> Result<Prepared<'a>, NoMemory> {
        found(alloc, self, table, table.instance())
    }
}

impl<'a> Command<'a> for Least<'a> {
    ghost course = { λ l. least l.steps (names_of l.names) };

    fn conclude<F: Files>(&self, alloc: Global, files: &mut F) -> Result<Prepared<'a>, NoMemory> {
        conclude_input(alloc, files, self.names.input, self)
    }
}
