//! The one call of the program, from the words to the status.
#![tactic(auto)]

mod entry;
mod laws;
mod misuse;

pub use command_words::{OptionName, Role, UsageFault};
pub use entry::run;
pub use laws::{
    causes, check_faults_are_exact, checks, conclusions, derived, judged, judges,
    layout_faults_are_exact, log_refused, lost, malformed, missed, print_fault, refused, shown,
    too_long, wrong,
};
pub use run_status::{LogCause, Status, WrongCause};
