//! The load of each section, and the peak of an instance.
#![tactic(auto)]

mod loads;
mod profile;

pub use profile::Profile;
