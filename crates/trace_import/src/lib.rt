//! Allocation traces: a recorded run of allocations is read, and written as the instance of it.
#![tactic(auto)]

mod ends;
mod fault;
mod fault_text;
mod importing;
mod laws;
mod line;
mod read;
mod request;
mod split;
mod trace;

pub use fault::TraceFault;
pub use importing::import;
pub use laws::{
    accepted_trace_is_imported, faults_name_what_is_held, imported_holds_what_the_trace_does,
    imported_is_an_instance,
};
pub use read::read_trace;
pub use trace::Trace;
