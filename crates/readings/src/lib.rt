//! The files that commands read: the instance, a layout to judge and a log to check, each with what
//! ends the run where the file does not give it.
#![tactic(auto)]

mod input;
mod layout_file;
mod log_file;
mod table_command;

pub use input::{Input, open_input};
pub use layout_file::{Judged, read_judged_layout};
pub use log_file::{Checked, read_checked_log};
pub use table_command::{TableCommand, conclude_input};
