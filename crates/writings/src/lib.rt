//! The files that commands write: a layout, a log, and both of a bracket.
#![tactic(auto)]

mod bracket;
mod files;
mod names;

pub use bracket::both_files;
pub use files::{layout_file, log_file};
pub use names::Names;
