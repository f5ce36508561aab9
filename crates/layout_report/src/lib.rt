//! Reports: the facts of an instance, and a layout at the instance's peak, as they are printed.
#![tactic(auto)]

mod facts;
mod layout;
mod row;
mod row_list;
mod row_text;

pub use facts::{Facts, bounds_report};
pub use layout::report;
