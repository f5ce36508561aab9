//! A lower bound on the capacity, by what is live at one moment, and its log of one line.
#![tactic(auto)]

mod crude;
mod falling;
mod highest;
mod moduli;
mod moment;
mod one_line;
mod tallies;
mod value;

pub use highest::bound;
pub use moment::bound_moment_is_one;
pub use value::Bound;
