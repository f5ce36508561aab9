//! Trims logs: what stays is the end's line, and each line that one which stays cites.
#![tactic(auto)]

mod marking;
mod moving;
mod trimming;

pub use trimming::trim;
