//! Finding a line of a log that covers a claim, or what is left of a claim by one of its buffers.
#![tactic(auto)]

mod bits;
mod child_cover;
mod levels;
mod look;
mod recent;
mod row_search;
mod watch_row;
mod watch_table;
mod watches;

pub use bits::bit_of;
pub use levels::level_at;
pub use recent::Recent;
pub use watches::Watches;
