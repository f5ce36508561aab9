//! Lifetimes on a circle: buffers whose moments repeat with a period, and their instance of one
//! period.
#![tactic(auto)]

mod fault;
mod fault_text;
mod laws;
mod unrolling;

pub use fault::CycleFault;
pub use laws::{rounds_repeat, unrolled_has_the_layouts, unrolled_table_is_the_cycle};
pub use unrolling::{Unrolled, unroll};
