//! The sections of an instance: moments that stand for all moments, each with the buffers that are
//! live then.
#![tactic(auto)]

mod build;
mod edges;
mod laws;
mod places;
mod section_list;
mod sweep;
mod thin;

pub use laws::sections_are_one;
pub use section_list::Sections;
