//! A bracket round the least capacity made narrower within a number of units, over anything that
//! tries capacities.
#![tactic(auto)]

mod answers;
mod one_capacity;
mod pass;
mod slices;
mod tries;

pub use one_capacity::settle;
pub use slices::narrow;
pub use tries::Tries;
