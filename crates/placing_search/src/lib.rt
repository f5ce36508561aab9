//! Better layouts by placing the buffers in many orders, an order made a little better at a time.
#![tactic(auto)]

mod beginnings;
mod climbing;
mod draws;
mod improving;
mod meetings;
mod rankings;
mod sides;
mod stacking;
mod swaps;

pub use improving::{Improved, improve};
