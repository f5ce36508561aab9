//! A claim that buffers are taken from and put back to, as a list of claims.
#![tactic(auto)]

mod ledges;
mod lows;
mod lows_of;
mod rooms;
mod rows;
mod sky;
mod too_full;

pub use sky::Skyline;
