//! The rectangles, with the load's line and the ids over them.

ghost use Rattle.std.specs.Prelude.{◌≡◌, ◌+◌, ◌*◌, ◌^◌, ◌<◌, ◌≤◌, ◌++◌, ◌∷◌, [], OnOk, length, flat_map};
ghost use Rattle.std.specs.List.{All};
ghost use Rattle.dsa_terms.specs.Parts.{numbers};
ghost use Rattle.csv_instance.specs.Offsets.{ids_of};
ghost use Rattle.layout_picture.specs.Texts.{colour_text, has_room, id_text, label_text, load_step, load_text, plot_text, rectangle_text, title_text};

use crate::escape::put_escaped;
use crate::put::{put, put_area, put_attribute, put_number};
use crate::rectangle::Rectangle;
use crate::scale::{Area, Scale};
use csv_instance::Table;
use dsa_model::{Buffer, Instance};
use std::alloc::AllocError;

/// The six digits of a colour.
fn colour_digits(k: u32) -> &'static [u8]
    ensures { result.now ≡ colour_text k }
{
    match k % 8 {
        0 => b"ffe58d",
        1 => b"9ac4ff",
        2 => b"db8a9e",
        3 => b"5deae9",
        4 => b"a1bc7a",
        5 => b"ffbcab",
        6 => b"ce99d2",
        _ => b"c5b5c8",
    }
}

/// Puts a buffer's size, place, lifetime and id.
fn put_title(text: &mut Vec<u8>, id: &[u8], buffer: &Buffer, place: u64) -> Result<(), AllocError>
    ensures { OnOk result (text.new.items ≡ text.old.items ++ title_text id.now buffer.now place) }
{
    put_number(text, buffer.size())?;
    put(text, b" bytes at ")?;
    put_number(text, place)?;
    put(text, b", live ")?;
    put_number(text, buffer.lower())?;
    put(text, b"-")?;
    put_number(text, buffer.upper())?;
    put(text, b": ")?;
    put_escaped(text, id)?;
    Ok(())
}

/// Puts a rectangle with its title.
fn put_rectangle(
    text: &mut Vec<u8>,
    scale: &Scale,
    table: &Table,
    instance: &Instance,
    colours: &[u32],
    rectangle: &Rectangle,
) -> Result<(), AllocError>
    requires id { rectangle.now.buffer + 1 < length table.now }
    requires buffer { rectangle.now.buffer < length instance.now }
    requires colours { length colours.now ≡ length instance.now }
    ensures { OnOk result (text.new.items ≡ text.old.items
        ++ rectangle_text scale.now instance.now (ids_of table.now) colours.now rectangle.now) }
{
    let b = rectangle.buffer;
    put(text, b"<path")?;
    put_area(text, &scale.area(rectangle))?;
    put(text, b" fill='#")?;
    put(text, colour_digits(colours[b as usize]))?;
    put(text, b"'><title>")?;
    put_title(text, table.id(b), instance.buffer(b), rectangle.place)?;
    put(text, b"</title></path>\n")?;
    Ok(())
}

/// Puts all rectangles.
fn put_rectangles(
    text: &mut Vec<u8>,
    scale: &Scale,
    table: &Table,
    instance: &Instance,
    colours: &[u32],
    rectangles: &[Rectangle],
) -> Result<(), AllocError>
    requires ids { length table.now ≡ length instance.now + 1 }
    requires colours { length colours.now ≡ length instance.now }
    requires buffers { All (λ r. r.buffer < length instance.now) rectangles.now }
    ensures { OnOk result (text.new.items ≡ text.old.items
        ++ flat_map (rectangle_text scale.now instance.now (ids_of table.now) colours.now)
        rectangles.now) }
{
    for rectangle in rectangles {
        put_rectangle(text, scale, table, instance, colours, rectangle)?;
    }
    Ok(())
}

/// Whether an id has room in the area.
fn has_room(id: &[u8], area: &Area) -> bool
    requires { length id.now ≤ 255 }
    ensures { result ≡ has_room (length id.now) area.now }
{
    7 * id.len() as u64 + 8 <= area.width && 14 <= area.height
}

/// Puts an id in its area.
fn put_id(text: &mut Vec<u8>, id: &[u8], area: &Area) -> Result<(), AllocError>
    requires x { area.now.x < 2 ^ 48 }
    requires y { area.now.y + area.now.height < 2 ^ 48 }
    ensures { OnOk result (text.new.items ≡ text.old.items ++ id_text id.now area.now) }
{
    put(text, b"<text")?;
    put_attribute(text, b"x", area.x + 4)?;
    put_attribute(text, b"y", area.y + area.height / 2 + 4)?;
    put(text, b">")?;
    put_escaped(text, id)?;
    put(text, b"</text>\n")?;
    Ok(())
}

/// Puts the id inside a rectangle, where there is room.
fn put_label(
    text: &mut Vec<u8>,
    scale: &Scale,
    table: &Table,
    rectangle: &Rectangle,
) -> Result<(), AllocError>
    requires { rectangle.now.buffer + 1 < length table.now }
    ensures { OnOk result (text.new.items ≡ text.old.items
        ++ label_text scale.now (ids_of table.now) rectangle.now) }
{
    let id = table.id(rectangle.buffer);
    let area = scale.area(rectangle);
    if !has_room(id, &area) {
        return Ok(());
    }
    put_id(text, id, &area)?;
    Ok(())
}

/// Puts the ids inside all rectangles.
fn put_labels(
    text: &mut Vec<u8>,
    scale: &Scale,
    table: &Table,
    rectangles: &[Rectangle],
) -> Result<(), AllocError>
    requires { All (λ r. r.buffer + 1 < length table.now) rectangles.now }
    ensures { OnOk result (text.new.items ≡ text.old.items
        ++ flat_map (label_text scale.now (ids_of table.now)) rectangles.now) }
{
    for rectangle in rectangles {
        put_label(text, scale, table, rectangle)?;
    }
    Ok(())
}

/// Puts the step of the load's line to column k and to its load.
fn put_step(text: &mut Vec<u8>, scale: &Scale, loads: &[u64], k: u32) -> Result<(), AllocError>
    requires { k < length loads.now }
    ensures { OnOk result
        (text.new.items ≡ text.old.items ++ load_step scale.now loads.now k) }
{
    put(text, b"H")?;
    put_number(text, scale.x(k))?;
    put(text, b"V")?;
    put_number(text, scale.y(loads[k as usize]))?;
    Ok(())
}

/// Puts all steps of the load's line.
fn put_steps(text: &mut Vec<u8>, scale: &Scale, loads: &[u64]) -> Result<(), AllocError>
    requires { length loads.now < 2 ^ 32 }
    ensures { OnOk result (text.new.items ≡ text.old.items
        ++ flat_map (load_step scale.now loads.now) (numbers (length loads.now))) }
{
    for k in 0..loads.len() as u32 {
        put_step(text, scale, loads, k)?;
    }
    Ok(())
}

/// Puts the load's line.
fn put_load(text: &mut Vec<u8>, scale: &Scale, loads: &[u64]) -> Result<(), AllocError>
    requires { length loads.now < 2 ^ 32 }
    ensures { OnOk result (text.new.items ≡ text.old.items ++ load_text scale.now loads.now) }
{
    put(
        text,
        b"<path fill='none' stroke='#a00' stroke-width='2' stroke-dasharray='6 3' d='M200 624",
    )?;
    put_steps(text, scale, loads)?;
    put(text, b"'/>\n")?;
    Ok(())
}

/// Puts the rectangles, and over them the load's line and the ids, which are edged in white.
pub(crate) fn put_plot(
    text: &mut Vec<u8>,
    scale: &Scale,
    table: &Table,
    instance: &Instance,
    colours: &[u32],
    loads: &[u64],
    rectangles: &[Rectangle],
) -> Result<(), AllocError>
    requires ids { length table.now ≡ length instance.now + 1 }
    requires few { length loads.now < 2 ^ 32 }
    requires colours { length colours.now ≡ length instance.now }
    requires buffers { All (λ r. r.buffer < length instance.now) rectangles.now }
    ensures { OnOk result (text.new.items ≡ text.old.items
        ++ plot_text scale.now instance.now (ids_of table.now) colours.now loads.now
        rectangles.now) }
{
    put(text, b"<g stroke='#333' stroke-width='.5'>\n")?;
    put_rectangles(text, scale, table, instance, colours, rectangles)?;
    put(text, b"</g>\n<g pointer-events='none'>\n")?;
    put_load(text, scale, loads)?;
    put(
        text,
        b"<g stroke='#fff' stroke-width='2' paint-order='stroke'>\n",
    )?;
    put_labels(text, scale, table, rectangles)?;
    put(text, b"</g>\n</g>\n")?;
    Ok(())
}
