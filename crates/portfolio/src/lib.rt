//! Tries to decide a capacity by a search in one order of the buffers after another.
#![tactic(auto)]

mod elsewhere;
mod searching;
mod turns;

pub use turns::Portfolio;
