//! The planner for C: the calls of `dsa_plan`, on numbers and slices.
#![tactic(auto)]

mod arrays;
mod detail;
mod exports;
mod told;

pub use arrays::Gap;
pub use detail::Detail;
pub use exports::{dsaplan_least, dsaplan_pack, dsaplan_plan_at};
