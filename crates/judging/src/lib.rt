//! The commands that judge a layout file: `verify`, `report` and `draw`.
#![tactic(auto)]

mod draw;
mod report;
mod verify;

pub use draw::Draw;
pub use report::Report;
pub use verify::Verify;
