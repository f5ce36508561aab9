//! The commands that check a log's file: `refute`, `trim` and `upgrade`.
#![tactic(auto)]

mod refute;
mod trim;
mod upgrade;

pub use refute::Refute;
pub use trim::Trim;
pub use upgrade::Upgrade;
