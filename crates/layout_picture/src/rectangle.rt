//! The rectangles of a layout.

ghost use Rattle.std.specs.Prelude.{◌≡◌, ◌+◌, ◌^◌, ◌<◌, ◌≤◌, ◌++◌, IfOk, OnOk, length, map, slice_index};
ghost use Rattle.std.specs.List.{All};
ghost use Rattle.layout_picture.specs.Columns.{columns_of};
ghost use Rattle.layout_picture.specs.Rectangles.{EndsWithin, begins_at, rectangles, rectangles_from, run_end};

use crate::flags::live_columns;
use dsa_model::Instance;
use std::alloc::{AllocError, Global};

/// What is drawn for a buffer over a greatest run of columns at which it is live.
#[derive(Clone, Copy)]
pub(crate) struct Rectangle {
    /// The buffer's number.
    pub(crate) buffer: u32,
    /// The first column of the run.
    pub(crate) first: u32,
    /// The column after the run.
    pub(crate) end: u32,
    /// Where the buffer begins, in bytes.
    pub(crate) place: u64,
    /// Where it ends, in bytes.
    pub(crate) top: u64,
}

/// Whether the buffer is live in column k and not in the one before it.
fn begins_at(flags: &[bool], k: usize) -> bool
    requires { k < length flags.now }
    ensures { result ≡ begins_at flags.now k }
{
    flags[k] && (k == 0 || !flags[k - 1])
}

/// The first column from k on in which the buffer is not live.
fn run_end(flags: &[bool], k: usize) -> usize
    requires { k ≤ length flags.now }
    ensures value { result ≡ run_end flags.now k }
    ensures within { result ≤ length flags.now }
{
    let mut end = k;
    while end < flags.len() && flags[end] {
        end += 1;
    }
    end
}

/// Appends the rectangles of buffer b, which is live in these columns and lies there.
fn push_rectangles(
    rectangles: &mut Vec<Rectangle>,
    flags: &[bool],
    buffer: u32,
    place: u64,
    top: u64,
) -> Result<(), AllocError>
    requires { length flags.now < 2 ^ 32 }
    ensures { OnOk result (rectangles.new.items
        ≡ rectangles.old.items ++ rectangles_from flags.now buffer place top) }
{
    for k in 0..flags.len() {
        if begins_at(flags, k) {
            rectangles.push(Rectangle {
                buffer,
                first: k as u32,
                end: run_end(flags, k) as u32,
                place,
                top,
            })?;
        }
    }
    Ok(())
}

/// The rectangles of all buffers, in order of the buffers and then of the columns.
pub(crate) fn rectangles(
    alloc: Global,
    instance: &Instance,
    offsets: &[u64],
    columns: &[u64],
) -> Result<Vec<Rectangle>, AllocError>
    requires ends { EndsWithin instance.now offsets.now }
    requires columns { columns.now ≡ columns_of instance.now }
    requires few { length columns.now < 2 ^ 32 }
    ensures value { IfOk result (λ all. all.items ≡ rectangles instance.now offsets.now) }
    ensures buffers { IfOk result (λ all. All (λ r. r.buffer < length instance.now) all.items) }
{
    let mut all = Vec::with_capacity(alloc, instance.len() as usize)?;
    for b in 0..instance.len() {
        let buffer = instance.buffer(b);
        let place = offsets[b as usize];
        let flags = live_columns(alloc, buffer, columns)?;
        push_rectangles(&mut all, &flags, b, place, place + buffer.size())?;
    }
    Ok(all)
}
