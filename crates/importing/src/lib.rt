//! The commands that make an instance of something else: `import` of a recorded run of allocations,
//! and `unroll` of buffers whose moments repeat.
#![tactic(auto)]

mod import;
mod unroll;

pub use import::Import;
pub use unroll::Unroll;
