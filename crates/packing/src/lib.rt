//! The command `pack`: the best layout that a number of steps can find.
#![tactic(auto)]

mod pack;

pub use pack::Pack;
