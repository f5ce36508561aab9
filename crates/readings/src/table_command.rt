//! Commands that read the input first.

ghost use Rattle.std.specs.Prelude.{◌≡◌, IfOk, List, Ok};
ghost use Rattle.dsa_terms.specs.Buffers.{Instance};
ghost use Rattle.csv_instance.specs.Records.{Record};
ghost use Rattle.csv_instance.specs.Parse.{parse};
ghost use Rattle.dsa_outside.specs.Faults.{NoneFell};
ghost use Rattle.run_course.specs.Course.{Comes, Course};
ghost use Rattle.run_course.specs.Prepares.{outcome_of};
ghost use Rattle.readings.specs.Input.{opened};

use crate::input::{Input, open_input};
use csv_instance::Table;
use dsa_model::NoMemory;
use dsa_outside::Files;
use run_course::{Prepared, silent};
use std::alloc::Global;

/// A command over the table of its input. `after` says how it goes on with the table and the
/// instance that it tells of.
pub trait TableCommand<'a> {
    ghost after: { Self → List Record → Instance → Course };

    /// What its values are known to meet.
    ghost is_known: { Self → Type 0 } = { λ _. Unit {0} };

    /// Reads the files of the course that come after the input, and makes all texts of its outcome.
    fn conclude_table<F: Files>(
        &self,
        alloc: Global,
        files: &mut F,
        table: &Table,
    ) -> Result<Prepared<'a>, NoMemory>
        requires known { is_known self.now }
        ensures comes { IfOk result (λ p. (I : Instance) × (parse table.now ≡ Ok I) ×
            Comes (F.seen files.old) (F.seen files.new) (after self.now table.now I)
            (outcome_of p)) }
        ensures files { (F.seen files.new).held ≡ (F.seen files.old).held }
        ensures counts { NoneFell (F.seen files.old).faults (F.seen files.new).faults };
}

/// Reads the input, and goes on with its table, if it has one.
pub fn conclude_input<'a, C: TableCommand<'a>, F: Files>(
    alloc: Global,
    files: &mut F,
    input: &str,
    command: &C,
) -> Result<Prepared<'a>, NoMemory>
    requires known { C.is_known command.now }
    ensures comes { IfOk result (λ p. Comes (F.seen files.old) (F.seen files.new)
        (opened input.now (C.after command.now)) (outcome_of p)) }
    ensures files { (F.seen files.new).held ≡ (F.seen files.old).held }
    ensures counts { NoneFell (F.seen files.old).faults (F.seen files.new).faults }
{
    match open_input(alloc, files, input)? {
        Input::Table(table) => command.conclude_table(alloc, files, &table),
        Input::Missing(status) => silent(alloc, status),
    }
}
