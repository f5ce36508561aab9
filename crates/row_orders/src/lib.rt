//! Orders of an instance's buffers, and layouts of the buffers in such an order, carried back to
//! the instance.
#![tactic(auto)]

mod carrying;
mod laws;
mod orders;

pub use carrying::carry_back;
pub use laws::orders_change_nothing;
pub use orders::{Order, in_order};
