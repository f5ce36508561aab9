//! The planner for a program that has its buffers in arrays: a layout within a capacity, of the
//! least capacity, or as low as a number of steps can find.
#![tactic(auto)]

mod answers;
mod arrays;
mod building;
mod fault;
mod leasts;
mod lengths;
mod packing;
mod planning;
mod writing;

pub use answers::{Answer, LeastAnswer};
pub use arrays::Arrays;
pub use fault::{ArraysFault, NumbersFault};
pub use leasts::plan_least;
pub use packing::pack;
pub use planning::plan_at;
