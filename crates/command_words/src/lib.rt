//! The words of a command line: the commands, their options, and the first fault of words that are
//! no command.
#![tactic(auto)]

mod fault;
mod fault_text;
mod form;
mod judge;
mod names;
mod option;
mod pair;
mod read;
mod request;
mod role;
mod value;
mod verb;

pub use fault::UsageFault;
pub use option::OptionName;
pub use read::read_words;
pub use request::Request;
pub use role::Role;
pub use verb::Verb;
