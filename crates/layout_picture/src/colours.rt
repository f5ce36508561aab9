//! The colours of the buffers.

ghost use Rattle.std.specs.Prelude.{◌≡◌, ◌<◌, IfOk, length};
ghost use Rattle.std.specs.List.{All};
ghost use Rattle.dsa_model.specs.Buffer.{buffer_limit};
ghost use Rattle.layout_picture.specs.Colours.{colours_of};
ghost use Rattle.layout_picture.specs.Rectangles.{EndsWithin, rectangles as all_rectangles};
ghost use Rattle.layout_picture.specs.Sides.{colour_left, has_colour};

use crate::rectangle::Rectangle;
use crate::touching::{Pair, pairs_of, touching};
use dsa_model::Instance;
use std::alloc::{AllocError, Global};

/// How many colours there are.
const COLOURS: u32 = 8;

/// Whether the earlier buffer of some pair has the colour.
fn has_colour(colours: &[u32], pairs: &[Pair], colour: u32) -> bool
    requires { All (λ p. p.earlier < length colours.now) pairs.now }
    ensures { result ≡ has_colour colours.now pairs.now colour }
{
    for pair in pairs {
        if colours[pair.earlier as usize] == colour {
            return true;
        }
    }
    false
}

/// The colour of the next buffer, which is the later one of these pairs: the first that no earlier
/// one has, or by its number where all are taken.
fn colour_left(colours: &[u32], pairs: &[Pair]) -> u32
    requires few { length colours.now < buffer_limit }
    requires earlier { All (λ p. p.earlier < length colours.now) pairs.now }
    ensures { result ≡ colour_left colours.now pairs.now }
{
    for colour in 0..COLOURS {
        if !has_colour(colours, pairs, colour) {
            return colour;
        }
    }
    colours.len() as u32 % COLOURS
}

/// The colour of each buffer: buffers that touch differ where one of the eight is left.
pub(crate) fn colours(
    alloc: Global,
    instance: &Instance,
    offsets: &[u64],
    rectangles: &[Rectangle],
) -> Result<Vec<u32>, AllocError>
    requires ends { EndsWithin instance.now offsets.now }
    requires rectangles { rectangles.now ≡ all_rectangles instance.now offsets.now }
    ensures value { IfOk result (λ colours. colours.items ≡ colours_of instance.now offsets.now) }
    ensures count { IfOk result (λ colours. length colours.items ≡ length instance.now) }
{
    let pairs = touching(alloc, instance, offsets, rectangles)?;
    let mut colours = Vec::with_capacity(alloc, instance.len() as usize)?;
    for b in 0..instance.len() {
        colours.push(colour_left(&colours, pairs_of(&pairs, b)))?;
    }
    Ok(colours)
}
