//! What is decided of one capacity: a layout, a log by which there is none, or neither where a
//! number of steps is used up; the least capacity; and the facts that are told of an instance
//! before it is laid out.
#![tactic(auto)]

mod bracketing;
mod decision;
mod instance_facts;
mod leasts;
mod one_stack;
mod planning;
mod searching;
mod starting;

pub use decision::Decision;
pub use instance_facts::facts_of;
pub use leasts::least_capacity;
pub use planning::plan;
