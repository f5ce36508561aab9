//! The levels of a claim, which say its lows, and those of a child, made from them in place.
#![tactic(auto)]

mod below;
mod grounds;
mod left;
mod levels;
mod placed;
mod present;
mod raising;
mod root;
mod spreading;
mod trail;

pub use levels::Levels;
pub use trail::Trail;
