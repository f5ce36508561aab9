//! The commands that decide: `solve` and `least`.
#![tactic(auto)]

mod least;
mod solve;

pub use least::Least;
pub use solve::Solve;
