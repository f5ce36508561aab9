//! `core`: an irreducible set of buffers that do not fit.

ghost use Rattle.std.specs.Prelude.{◌≡◌, ◌≤◌, ◌+◌, IfOk, Ok, length};
ghost use Rattle.dsa_model.specs.Limits.{number_limit};
ghost use Rattle.csv_instance.specs.Parse.{parse};
ghost use Rattle.run_course.specs.Course.{Concludes};
ghost use Rattle.run_course.specs.Prepares.{outcome_of};
ghost use Rattle.writings.specs.Named.{names_of};
ghost use Rattle.explaining.specs.Explaining.{ExplainsOrFits, core};

use crate::asking::Planner;
use core_find::{Found, find_core};
use csv_instance::{Table, write_rows};
use dsa_model::{Instance, NoMemory};
use dsa_outside::Files;
use readings::{TableCommand, conclude_input};
use run_course::{Command, Prepared, Writing, silent, two_writes};
use run_status::{Role, Status};
use std::alloc::Global;
use writings::{Names, log_file};

/// Writes the buffers of an irreducible set that does not fit within the capacity (in bytes, at
/// most 2^60), and the log that proves it, or tells that all fit.
#[derive(Clone, Copy)]
pub struct Core<'a> {
    pub capacity: u64,
    pub names: Names<'a>,
}

/// What is written and told of the table's instance.
fn explained<'a>(
    alloc: Global,
    words: &Core<'a>,
    table: &Table,
    instance: &Instance,
) -> Result<Prepared<'a>, NoMemory>
    requires capacity { words.now.capacity ≤ number_limit }
    requires parsed { parse table.now ≡ Ok instance.now }
    requires count { length table.now ≡ length instance.now + 1 }
    ensures { IfOk result (λ p.
        ExplainsOrFits words.now.capacity (names_of words.now.names)
        table.now instance.now (outcome_of p)) }
{
    let capacity = words.capacity;
    let mut planner = Planner;
    let core = match find_core(alloc, instance, capacity, &mut planner)? {
        Found::Fits(_) => return silent(alloc, Status::NoCore { capacity }),
        Found::Core(core) => core,
    };
    let rows = Writing {
        role: Role::Output,
        name: words.names.output,
        bytes: write_rows(alloc, table, core.members.as_slice())?,
    };
    let log = log_file(alloc, &core.log, words.names.log)?;
    let members = core.members.len() as u32;
    two_writes(alloc, rows, log, Status::Core { members })
}

impl<'a> TableCommand<'a> for Core<'a> {
    ghost after = { λ k table I.
        Concludes (ExplainsOrFits k.capacity (names_of k.names) table I) };

    ghost is_known = { λ k. k.capacity ≤ number_limit };

    fn conclude_table<F: Files>(
        &self,
        alloc: Global,
        _files: &mut F,
        table: &Table,
    ) -> Result<Prepared<'a>, NoMemory> {
        explained(alloc, self, table, table.instance())
    }
}

impl<'a> Command<'a> for Core<'a> {
    ghost course = { λ k. core k.capacity (names_of k.names) };

    ghost is_asked = { λ k. k.capacity ≤ number_limit };

    fn conclude<F: Files>(&self, alloc: Global, files: &mut F) -> Result<Prepared<'a>, NoMemory> {
        conclude_input(alloc, files, self.names.input, self)
    }
}
