//! Made instances: from a seed and a count the text of an instance file, the same at each call, for
//! trials of a planner.
#![tactic(auto)]

mod draws;
mod made;
mod row;

pub use made::{MakeFault, make};
