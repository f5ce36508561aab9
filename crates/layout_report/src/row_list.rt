//! What stands at a moment: the live buffers, and the free ranges between them.

ghost use Rattle.std.specs.Prelude.{◌≡◌, ◌+◌, ◌≤◌, ◌++◌, ℕ, List, length, IfOk, OnOk};
ghost use Rattle.std.specs.List.{All};
ghost use Rattle.dsa_terms.specs.Buffers.{Instance as InstanceTerm};
ghost use Rattle.dsa_terms.specs.Layouts.{IsLayout};
ghost use Rattle.dsa_terms.specs.Plans.{layout_height};
ghost use Rattle.dsa_model.specs.Limits.{number_limit};
ghost use Rattle.layout_report.specs.Report.{AreRowsOf};
ghost use Rattle.layout_report.specs.Rows.{AreLiveRows, AreRowsAt, rows_between};

use crate::row::Row;
use dsa_model::Instance;
use std::alloc::{AllocError, Global};

/// The rows of the buffers that are live at the moment, by rising place.
fn live_rows(
    alloc: Global,
    instance: &Instance,
    offsets: &[u64],
    moment: u64,
) -> Result<Vec<Row>, AllocError>
    requires { IsLayout instance.now number_limit offsets.now }
    ensures live { IfOk result (λ rows. AreLiveRows instance.now offsets.now moment rows.items) }
    ensures within { IfOk result (λ rows.
        All (λ row. row.place + row.size ≤ layout_height instance.now offsets.now) rows.items) }
{
    let mut rows = Vec::new(alloc);
    for b in 0..instance.len() {
        let buffer = instance.buffer(b);
        if buffer.live_at(moment) {
            rows.push(Row {
                place: offsets[b as usize],
                size: buffer.size(),
                buffer: Some(b),
            })?;
        }
    }
    rows.sort_unstable_by_key(|row| row.place);
    Ok(rows)
}

/// Puts a row for the free addresses from `start` up to and not including `stop`, if there are any.
fn push_free(rows: &mut Vec<Row>, start: u64, stop: u64) -> Result<(), AllocError>
    ensures { OnOk result (rows.new.items ≡ rows.old.items ++ rows_between start stop) }
{
    if start < stop {
        rows.push(Row {
            place: start,
            size: stop - start,
            buffer: None,
        })?;
    }
    Ok(())
}

/// The rows of live buffers with a row for each free range: what lies between the end of the rows
/// so far and the next one, and what lies above them all, up to the height.
fn with_free(alloc: Global, live: &[Row], height: u64) -> Result<Vec<Row>, AllocError>
    requires within { All (λ row. row.place + row.size ≤ height) live.now }
    ensures { IfOk result (λ rows. (I : InstanceTerm) (offsets : List ℕ) (t : ℕ) →
        AreLiveRows I offsets t live.now → AreRowsAt I offsets t height rows.items) }
{
    let mut rows = Vec::new(alloc);
    let mut top = 0;
    for row in live {
        push_free(&mut rows, top, row.place)?;
        rows.push(*row)?;
        top = row.place + row.size;
    }
    push_free(&mut rows, top, height)?;
    Ok(rows)
}

/// The rows at the moment, in order of place: the live buffers, and the free ranges below the
/// layout's height.
fn rows_at(
    alloc: Global,
    instance: &Instance,
    offsets: &[u64],
    moment: u64,
    height: u64,
) -> Result<Vec<Row>, AllocError>
    requires layout { IsLayout instance.now number_limit offsets.now }
    requires height { height ≡ layout_height instance.now offsets.now }
    ensures { IfOk result (λ rows. let height = layout_height instance.now offsets.now in
        AreRowsAt instance.now offsets.now moment height rows.items) }
{
    let live = live_rows(alloc, instance, offsets, moment)?;
    with_free(alloc, &live, height)
}

/// The rows at the peak's moment, and none where there is no peak.
pub(crate) fn rows_at_peak(
    alloc: Global,
    instance: &Instance,
    offsets: &[u64],
    peak: Option<(u64, u64)>,
    height: u64,
) -> Result<Vec<Row>, AllocError>
    requires layout { IsLayout instance.now number_limit offsets.now }
    requires height { height ≡ layout_height instance.now offsets.now }
    ensures { IfOk result (λ rows. AreRowsOf instance.now offsets.now peak rows.items) }
{
    match peak {
        Some((moment, _)) => rows_at(alloc, instance, offsets, moment, height),
        None => Ok(Vec::new(alloc)),
    }
}
