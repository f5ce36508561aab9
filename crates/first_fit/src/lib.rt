//! First-fit and best-fit: offsets for the buffers of an instance, one buffer after another, and
//! the six layouts from which a search starts.
#![tactic(auto)]

mod fits;
mod orders;
mod places;
mod seats;
mod spans;
mod start_list;

pub use fits::{best_fit, first_fit};
pub use start_list::{Start, best_start, first_within, starts};
