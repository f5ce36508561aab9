//! What is read of an instance file: how many of its buffers ask for more than a size and a
//! lifetime, and what each column of its header means.
#![tactic(auto)]

mod columns;
mod counts;
mod law;
mod report;

pub use law::meanings_are_as_read;
pub use report::column_report;
