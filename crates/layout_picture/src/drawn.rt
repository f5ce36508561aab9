//! What a picture is.

/// A picture, and what is drawn in it.
#[derive(Drop)]
pub struct Picture {
    /// The bytes of an SVG file.
    pub text: Vec<u8>,
    /// How many rectangles are drawn: one for each greatest run of columns at which a buffer is
    /// live.
    pub rectangles: u64,
}
