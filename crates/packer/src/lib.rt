//! The best layout that a number of steps can find, and a log of what it cannot get below: the six
//! starts and the lower bound, layouts from placing orders that are improved, and searches.
#![tactic(auto)]

mod bracketing;
mod brief_log;
mod leasts;
mod within;

pub use leasts::pack_least;
pub use within::pack_within;
