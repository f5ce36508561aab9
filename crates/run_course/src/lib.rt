//! The course of a run, whatever the command: it reads its files one after the other, each within
//! its limit, concludes from their bytes, writes, and prints one text last.
#![tactic(auto)]

mod command;
mod performance;
mod prepared;
mod read;

pub use command::Command;
pub use performance::perform;
pub use prepared::{Prepared, Said, Writing, one_write, say, shown, silent, two_writes};
pub use read::{Content, read_file};
