//! The command that says why buffers do not fit: `core`.
#![tactic(auto)]

mod asking;
mod explain;

pub use explain::Core;
