//! Plans by size class: buffers of about one size share a row of slots, which are coloured by time,
//! so that no search is needed.
#![tactic(auto)]

mod colouring;
mod laws;
mod plain;
mod plan;
mod pool;
mod rows;
mod sizes;
mod turns;

pub use colouring::slots;
pub use laws::{
    class_is_least, class_plan_is_a_layout, equal_sizes_are_least, slots_are_coloured,
    slots_are_least, smooth_is_plain,
};
pub use plan::{ClassPlan, NotPlain, classes};
