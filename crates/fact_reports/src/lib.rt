//! The commands that print something of an instance: `bounds`, `inspect` and `trial`.
#![tactic(auto)]

mod bounds;
mod inspect;
mod reporting;
mod trial;

pub use bounds::Bounds;
pub use inspect::Inspect;
pub use reporting::{InstanceReport, Reporting};
pub use trial::Trial;
