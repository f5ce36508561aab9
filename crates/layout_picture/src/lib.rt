//! A picture of a layout: columns for moments, rows for places, a rectangle wherever a buffer is
//! live, as an SVG file.
#![tactic(auto)]

mod colours;
mod columns;
mod draw;
mod drawn;
mod escape;
mod flags;
mod frame;
mod laws;
mod loads;
mod plot;
mod put;
mod rectangle;
mod scale;
mod side;
mod touching;

pub use draw::picture;
pub use drawn::Picture;
pub use laws::{
    colours_tell_apart, loads_are_shown, moments_are_shown, rectangles_are_apart,
    scaling_keeps_order,
};
