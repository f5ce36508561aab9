//! The picture of a layout.

ghost use Rattle.std.specs.Prelude.{◌≡◌, Ok, IfOk, length};
ghost use Rattle.dsa_terms.specs.Buffers.{Instance as InstanceTerm};
ghost use Rattle.csv_instance.specs.Offsets.{ids_of};
ghost use Rattle.csv_instance.specs.Parse.{parse};
ghost use Rattle.layout_picture.specs.Rectangles.{EndsWithin, rectangles};
ghost use Rattle.layout_picture.specs.Texts.{picture_text};

use crate::colours::colours;
use crate::columns::columns;
use crate::drawn::Picture;
use crate::frame::{put_frame, put_head};
use crate::loads::loads;
use crate::plot::put_plot;
use crate::put::put;
use crate::rectangle::rectangles;
use crate::scale::Scale;
use csv_instance::Table;
use dsa_model::{NoMemory, height};
use std::alloc::Global;

/// The picture of a layout as an SVG file.
///
/// A column is a moment at which some buffer begins or ends to be live, and is as wide as any
/// other. Each buffer has a rectangle for each greatest run of columns at which it is live, from
/// its offset to its end, with its size, place, lifetime and id as the title. Buffers that touch
/// differ in colour where one of the eight is left. The left axis marks
/// the layout's height and the peak load, in bytes, the lower axis some moments; the load is a
/// dashed line.
///
/// The caller owes as many offsets as the table has buffers, each buffer ending at or below 2^60.
pub fn picture(alloc: Global, table: &Table, offsets: &[u64]) -> Result<Picture, NoMemory>
    requires { (I : InstanceTerm) → parse table.now ≡ Ok I → EndsWithin I offsets.now }
    ensures text { IfOk result (λ p. (I : InstanceTerm) → parse table.now ≡ Ok I →
        p.text.items ≡ picture_text I (ids_of table.now) offsets.now) }
    ensures count { IfOk result (λ p. (I : InstanceTerm) → parse table.now ≡ Ok I →
        p.rectangles ≡ length (rectangles I offsets.now)) }
{
    let instance = table.instance();
    let columns = columns(alloc, instance)?;
    let loads = loads(alloc, instance, &columns)?;
    let rectangles = rectangles(alloc, instance, offsets, &columns)?;
    let colours = colours(alloc, instance, offsets, &rectangles)?;
    let scale = Scale {
        columns: columns.len() as u32,
        height: height(instance, offsets),
    };
    let mut text = Vec::new(alloc);
    put_head(&mut text, &scale)?;
    put_plot(
        &mut text,
        &scale,
        table,
        instance,
        &colours,
        &loads,
        &rectangles,
    )?;
    put_frame(&mut text, &scale, &columns, &loads)?;
    put(&mut text, b"</svg>\n")?;
    Ok(Picture {
        text,
        rectangles: rectangles.len() as u64,
    })
}
