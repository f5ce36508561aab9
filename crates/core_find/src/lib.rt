//! Why buffers do not fit: an irreducible set of them, with a layout for the others of each of its
//! members.
#![tactic(auto)]

mod ask;
mod fewer_log;
mod find;
mod found;
mod known;
mod last_log;
mod laws;
mod looking;
mod members;
mod rests;
mod stack;
mod stepping;

pub use ask::{Ask, Asked};
pub use find::find_core;
pub use found::{Core, Found};
pub use laws::{
    core_is_irreducible, core_is_one, core_stands_by_itself, fewer_keep_the_log, more_fit_no_better,
};
pub use members::sub_instance;
