//! How a run ends, and the line that is printed for it.
#![tactic(auto)]

mod lines;
mod status;

pub use command_words::{OptionName, Role, UsageFault};
pub use lines::{status_line, unwritten_line};
pub use status::{LogCause, Status, WrongCause};
