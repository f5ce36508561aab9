//! Asking the planner whether buffers fit.

ghost use Rattle.std.specs.Prelude.{◌≤◌, ◌^◌, IfOk};
ghost use Rattle.core_find.specs.Found.{IsAnswer};

use core_find::{Ask, Asked};
use dsa_model::{Instance, NoMemory};
use planner::{Decision, plan};
use std::alloc::Global;

/// The planner without a number of steps.
#[derive(Drop)]
pub(crate) struct Planner;

impl Ask for Planner {
    fn ask(
        &mut self,
        alloc: Global,
        instance: &Instance,
        capacity: u64,
    ) -> Result<Asked, NoMemory> {
        match plan(alloc, instance, capacity, None)? {
            Decision::Layout(offsets) => Ok(Asked::Layout(offsets)),
            Decision::Refuted(log) => Ok(Asked::Refuted(log)),
            Decision::Open(_) => unreachable!(),
        }
    }
}
