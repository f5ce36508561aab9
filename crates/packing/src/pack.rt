//! `pack`: the best layout that a number of steps can find, with a log of what is too little.

ghost use Rattle.std.specs.Prelude.{◌≡◌, ◌+◌, ◌-◌, ◌≤◌, None, Some, IfOk, IfSome, length};
ghost use Rattle.dsa_model.specs.Limits.{number_limit};
ghost use Rattle.run_course.specs.Course.{Concludes};
ghost use Rattle.run_course.specs.Prepares.{outcome_of};
ghost use Rattle.packer.specs.Packs.{AreUsedUp, placing_steps};
ghost use Rattle.portfolio.specs.Trials.{at_start};
ghost use Rattle.writings.specs.Named.{names_of};
ghost use Rattle.packing.specs.Packing.{Packs, pack};
ghost use Rattle.packing.specs.Used.{IfLeavesOpen};

use csv_instance::Table;
use dsa_model::{Instance, NoMemory};
use dsa_outside::Files;
use min_capacity::Least;
use packer::{pack_least, pack_within};
use planner::Decision;
use portfolio::Portfolio;
use readings::{TableCommand, conclude_input};
use run_course::{Command, Prepared, one_write};
use run_status::Status;
use std::alloc::Global;
use writings::{Names, both_files, layout_file, log_file};

/// Packs the instance of the input as low as so many steps can, and writes the layout with a log by
/// which less is too little; where a capacity (in bytes) is given, a layout within it, or a log by
/// which there is none. The capacity and the steps are at most 2^60.
#[derive(Clone, Copy)]
pub struct Pack<'a> {
    pub capacity: Option<u64>,
    pub steps: u64,
    pub names: Names<'a>,
}

/// What is written and told where no capacity is given. The searches use no more steps than those
/// that are not for placings, and it stays open only where they use all of these.
fn packed_least<'a>(
    alloc: Global,
    words: &Pack<'a>,
    table: &Table,
    instance: &Instance,
    tries: &mut Portfolio,
) -> Result<Prepared<'a>, NoMemory>
    requires none { words.now.capacity ≡ None }
    requires steps { words.now.steps ≤ number_limit }
    requires count { length table.now ≡ length instance.now + 1 }
    requires unused { tries.old ≡ at_start instance.now }
    ensures value { IfOk result (λ p. Packs words.now.capacity words.now.steps
        (names_of words.now.names) table.now instance.now (outcome_of p)) }
    ensures used { tries.new.units ≤ tries.old.units +
        (words.now.steps - placing_steps words.now.steps) }
    ensures exhausted { IfOk result (λ p.
        IfLeavesOpen (outcome_of p) (AreUsedUp words.now.steps tries.old.units tries.new.units)) }
{
    let names = &words.names;
    match pack_least(alloc, instance, words.steps, tries)? {
        Least::Exact(bracket) => {
            let status = Status::Least {
                capacity: bracket.high,
            };
            both_files(alloc, table, &bracket, names, status)
        }
        Least::Open(bracket) => {
            let status = Status::Open {
                low: bracket.low,
                high: bracket.high,
            };
            both_files(alloc, table, &bracket, names, status)
        }
    }
}

/// What is written and told where this capacity is given. The searches use steps as with none.
fn packed_within<'a>(
    alloc: Global,
    words: &Pack<'a>,
    capacity: u64,
    table: &Table,
    instance: &Instance,
    tries: &mut Portfolio,
) -> Result<Prepared<'a>, NoMemory>
    requires given { words.now.capacity ≡ Some capacity }
    requires capacity { capacity ≤ number_limit }
    requires steps { words.now.steps ≤ number_limit }
    requires count { length table.now ≡ length instance.now + 1 }
    requires unused { tries.old ≡ at_start instance.now }
    ensures value { IfOk result (λ p. Packs words.now.capacity words.now.steps
        (names_of words.now.names) table.now instance.now (outcome_of p)) }
    ensures used { tries.new.units ≤ tries.old.units +
        (words.now.steps - placing_steps words.now.steps) }
    ensures exhausted { IfOk result (λ p.
        IfLeavesOpen (outcome_of p) (AreUsedUp words.now.steps tries.old.units tries.new.units)) }
{
    let names = &words.names;
    match pack_within(alloc, instance, capacity, words.steps, tries)? {
        Decision::Layout(offsets) => {
            let file = layout_file(alloc, table, offsets.as_slice(), names.output)?;
            one_write(alloc, file, Status::Feasible { capacity })
        }
        Decision::Refuted(refutation) => {
            let file = log_file(alloc, &refutation, names.log)?;
            one_write(alloc, file, Status::Infeasible { capacity })
        }
        Decision::Open(bracket) => {
            let status = Status::Open {
                low: bracket.low,
                high: bracket.high,
            };
            both_files(alloc, table, &bracket, names, status)
        }
    }
}

/// What is written and told of the table's instance, by searches in several orders of its buffers.
/// They use no more steps than those that are not for placings, and where the least capacity or the
/// capacity that is given stays open they have used all of these.
fn packed<'a>(
    alloc: Global,
    words: &Pack<'a>,
    table: &Table,
    instance: &Instance,
    tries: &mut Portfolio,
) -> Result<Prepared<'a>, NoMemory>
    requires capacity { IfSome words.now.capacity (λ C. C ≤ number_limit) }
    requires steps { words.now.steps ≤ number_limit }
    requires count { length table.now ≡ length instance.now + 1 }
    requires unused { tries.old ≡ at_start instance.now }
    ensures value { IfOk result (λ p. Packs words.now.capacity words.now.steps
        (names_of words.now.names) table.now instance.now (outcome_of p)) }
    ensures used { tries.new.units ≤ tries.old.units +
        (words.now.steps - placing_steps words.now.steps) }
    ensures exhausted { IfOk result (λ p.
        IfLeavesOpen (outcome_of p) (AreUsedUp words.now.steps tries.old.units tries.new.units)) }
{
    match words.capacity {
        Some(capacity) => packed_within(alloc, words, capacity, table, instance, tries),
        None => packed_least(alloc, words, table, instance, tries),
    }
}

impl<'a> TableCommand<'a> for Pack<'a> {
    ghost after = { λ p table I.
        Concludes (Packs p.capacity p.steps (names_of p.names) table I) };

    ghost is_known = { λ p.
        IfSome p.capacity (λ C. C ≤ number_limit) × (p.steps ≤ number_limit) };

    fn conclude_table<F: Files>(
        &self,
        alloc: Global,
        _files: &mut F,
        table: &Table,
    ) -> Result<Prepared<'a>, NoMemory> {
        let instance = table.instance();
        let mut tries = Portfolio::new(alloc, instance)?;
        packed(alloc, self, table, instance, &mut tries)
    }
}

impl<'a> Command<'a> for Pack<'a> {
    ghost course = { λ p. pack p.capacity p.steps (names_of p.names) };

    ghost is_asked = { λ p.
        IfSome p.capacity (λ C. C ≤ number_limit) × (p.steps ≤ number_limit) };

    fn conclude<F: Files>(&self, alloc: Global, files: &mut F) -> Result<Prepared<'a>, NoMemory> {
        conclude_input(alloc, files, self.names.input, self)
    }
}
