//! The least capacity of an instance, over anything that decides capacities.
#![tactic(auto)]

mod brackets;
mod halving;

pub use brackets::{Bracket, Least};
pub use halving::least;
