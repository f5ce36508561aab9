//! The checker of logs: a log that anybody may have made is accepted for an instance, or refused
//! for its first fault.
#![tactic(auto)]

mod checker;
mod ending;
mod fault;
mod fault_text;
mod lines;
mod narrowing;

pub use checker::check;
pub use fault::CheckFault;
