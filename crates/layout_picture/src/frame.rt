//! The axes with their marks.

ghost use Rattle.std.specs.Prelude.{◌≡◌, ◌+◌, ◌^◌, ◌<◌, ◌≤◌, ◌++◌, OnOk, length};
ghost use Rattle.std.specs.List.{All};
ghost use Rattle.std.specs.Prelude.{flat_map};
ghost use Rattle.dsa_terms.specs.Logs.{greatest};
ghost use Rattle.dsa_terms.specs.Parts.{numbers};
ghost use Rattle.layout_picture.specs.Texts.{axes_text, frame_text, head_text, is_marked, mark_text, marks_text, moment_text, note_text};

use crate::put::{put, put_attribute, put_number};
use crate::scale::Scale;
use std::alloc::AllocError;

/// Puts the beginning, with the size of the picture.
pub(crate) fn put_head(text: &mut Vec<u8>, scale: &Scale) -> Result<(), AllocError>
    ensures { OnOk result (text.new.items ≡ text.old.items ++ head_text scale.now) }
{
    let width = scale.x(scale.spans()) + 72;
    put(text, b"<svg xmlns='http://www.w3.org/2000/svg'")?;
    put_attribute(text, b"width", width)?;
    put(text, b" height='672' viewBox='0 0 ")?;
    put_number(text, width)?;
    put(
        text,
        b" 672' font-family='monospace' font-size='11'>\n<rect width='100%' height='100%' fill='#fff'/>\n",
    )?;
    Ok(())
}

/// Puts the two axes.
fn put_axes(text: &mut Vec<u8>, scale: &Scale) -> Result<(), AllocError>
    ensures { OnOk result (text.new.items ≡ text.old.items ++ axes_text scale.now) }
{
    put(text, b"<path fill='none' stroke='#000' d='M200 24V624H")?;
    put_number(text, scale.x(scale.spans()))?;
    put(text, b"'/>\n")?;
    Ok(())
}

/// Puts a mark of the left axis, with a name and a number beside it.
fn put_mark(text: &mut Vec<u8>, name: &[u8], n: u64, y: u64, beside: u64) -> Result<(), AllocError>
    ensures { OnOk result (text.new.items ≡ text.old.items ++ mark_text name.now n y beside) }
{
    put(text, b"<path stroke='#000' d='M194 ")?;
    put_number(text, y)?;
    put(text, b"H200'/><text x='191'")?;
    put_attribute(text, b"y", beside)?;
    put(text, b">")?;
    put(text, name)?;
    put_number(text, n)?;
    put(text, b"</text>\n")?;
    Ok(())
}

/// Puts the marks of the height and of the peak load.
fn put_marks(text: &mut Vec<u8>, scale: &Scale, peak: u64) -> Result<(), AllocError>
    ensures { OnOk result (text.new.items ≡ text.old.items ++ marks_text scale.now peak) }
{
    let top = scale.y(scale.height);
    let most = scale.y(peak);
    put_mark(text, b"height ", scale.height, top, top - 2)?;
    put_mark(text, b"peak ", peak, most, most + 12)?;
    Ok(())
}

/// Whether column k has a mark.
fn is_marked(scale: &Scale, k: u32) -> bool
    ensures { result ≡ is_marked scale.now k }
{
    k as u64 % (130 / scale.column_width() + 1) == 0
}

/// Puts the mark of column k with its moment, if it has one.
fn put_moment(text: &mut Vec<u8>, scale: &Scale, moments: &[u64], k: u32) -> Result<(), AllocError>
    requires { k < length moments.now }
    ensures { OnOk result
        (text.new.items ≡ text.old.items ++ moment_text scale.now moments.now k) }
{
    if !is_marked(scale, k) {
        return Ok(());
    }
    let x = scale.x(k);
    put(text, b"<path stroke='#000' d='M")?;
    put_number(text, x)?;
    put(text, b" 624v6'/><text")?;
    put_attribute(text, b"x", x)?;
    put(text, b" y='650'>")?;
    put_number(text, moments[k as usize])?;
    put(text, b"</text>\n")?;
    Ok(())
}

/// Puts the marks of all columns that have one.
fn put_moments(text: &mut Vec<u8>, scale: &Scale, moments: &[u64]) -> Result<(), AllocError>
    requires { length moments.now < 2 ^ 32 }
    ensures { OnOk result (text.new.items ≡ text.old.items
        ++ flat_map (moment_text scale.now moments.now) (numbers (length moments.now))) }
{
    for k in 0..moments.len() as u32 {
        put_moment(text, scale, moments, k)?;
    }
    Ok(())
}

/// The greatest of the numbers, and 0 for none.
fn greatest(numbers: &[u64]) -> u64
    ensures { result ≡ greatest numbers.now }
{
    let mut most = 0;
    for n in numbers {
        most = most.max(*n);
    }
    most
}

/// Puts what the lines and the axes mean.
fn put_note(text: &mut Vec<u8>) -> Result<(), AllocError>
    ensures { OnOk result (text.new.items ≡ text.old.items ++ note_text) }
{
    put(text, b"<text x='200' y='664'>dashed: load in bytes; ")?;
    put(
        text,
        b"a column for each moment at which something changes, not to scale</text>\n",
    )?;
    Ok(())
}

/// Puts the axes with their marks and what they mean.
pub(crate) fn put_frame(
    text: &mut Vec<u8>,
    scale: &Scale,
    moments: &[u64],
    loads: &[u64],
) -> Result<(), AllocError>
    requires { length moments.now < 2 ^ 32 }
    ensures { OnOk result
        (text.new.items ≡ text.old.items ++ frame_text scale.now moments.now loads.now) }
{
    put(text, b"<g pointer-events='none'>\n")?;
    put_axes(text, scale)?;
    put(text, b"<g text-anchor='end'>\n")?;
    put_marks(text, scale, greatest(loads))?;
    put(text, b"</g>\n<g text-anchor='middle'>\n")?;
    put_moments(text, scale, moments)?;
    put(text, b"</g>\n")?;
    put_note(text)?;
    put(text, b"</g>\n")?;
    Ok(())
}
