//! The choices of a claim in order, what is noted of them, and the line that ends the claim.
#![tactic(auto)]

mod cases;
mod choice;
mod cites;
mod ending;
mod frame;
mod lines;
mod notes;
mod over;
mod task;
mod twin_marks;

pub use cases::refute;
pub use choice::choices;
pub use frame::Frame;
pub use lines::append;
pub use notes::{Notes, Refuted};
pub use over::over_line;
pub use task::{Task, greatest_size};
pub use twin_marks::TwinMarks;
