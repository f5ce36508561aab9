//! The search that decides a capacity: the first layout in its order, or a log that refutes the
//! capacity.
#![tactic(auto)]

mod budget;
mod found;
mod gather;
mod kept;
mod meter;
mod opening;
mod part;
mod path;
mod search;
mod turns;
mod walk;
mod whole;

pub use budget::Budget;
pub use search::Search;
