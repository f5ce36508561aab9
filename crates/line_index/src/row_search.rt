//! Lines that watch a bound of one buffer, and cover a claim.

ghost use Rattle.std.specs.Prelude.{◌≡◌, ◌≤◌, ◌<◌, Some, true, false, IfNone, IfOk, IfSome, OnOk, length, slice_get, slice_index, take};
ghost use Rattle.dsa_terms.specs.Buffers.{Instance};
ghost use Rattle.dsa_terms.specs.Claims.{Claim as ClaimTerm};
ghost use Rattle.dsa_model.specs.Buffer.{buffer_limit};
ghost use Rattle.canonical_order.specs.Levels.{AreLevels};
ghost use Rattle.line_index.specs.declared.watch_row.Mark.{Mark as MarkTerm};
ghost use Rattle.line_index.specs.Covered.{IsCoveredBy};
ghost use Rattle.line_index.specs.Rows.{IsRowOf};
ghost use Rattle.line_index.specs.Watches.{AreNoted, row_at};
ghost use Rattle.line_index.specs.Watching.{AreMoved, FailAt, FailInRow, FailsAtMark};

use crate::levels::level_at;
use crate::look::{Look, look_at};
use crate::watch_row::Mark;
use crate::watch_table::WatchTable;
use dsa_model::NoMemory;
use refute_log::Log;

/// Whether the mark needs no look at its line: where it has a bound from `low` on and below `high`,
/// its note is a buffer that has no level.
fn is_passed(mark: &Mark, low: u64, high: u64, levels: &[u64]) -> bool
    ensures passed { result ≡ true → low ≤ mark.now.bound → mark.now.bound < high →
        slice_index levels.now mark.now.note ≡ 0 }
    ensures tried { result ≡ false → mark.now.bound < high }
{
    if mark.bound < low || high <= mark.bound {
        return true;
    }
    level_at(levels, mark.note as usize) == 0
}

/// The line of the mark at a place of row p, if it covers the claim of the levels. The row is one
/// of buffer b, and the claim meets the bound of the mark. If the line does not cover it, then
/// either no line has the mark for its watch, or the watch fails at the levels. Marks at the places
/// before stay.
fn try_mark(
    table: &mut WatchTable,
    log: &Log,
    b: u32,
    p: usize,
    i: usize,
    now: &[u64],
) -> Result<Option<u64>, NoMemory>
    requires row { IsRowOf b p }
    requires in_row { i < length (row_at table.old.rows p) }
    requires met { (m : MarkTerm) → slice_get (row_at table.old.rows p) i ≡ Some m →
        m.bound < slice_index now.now b }
    ensures some { (I : Instance) (l : ClaimTerm) → AreLevels I l now.now →
        IfOk result (λ found. IfSome found (IsCoveredBy I log.now.lines l)) }
    ensures none { (m : MarkTerm) → slice_get (row_at table.old.rows p) i ≡ Some m →
        IfOk result (λ found. IfNone found
        (FailsAtMark log.now.lines table.new.watches now.now b m)) }
    ensures moved { let lines = log.now.lines in
        OnOk result (AreMoved lines now.now table.old.watches table.new.watches) }
    ensures noted { AreNoted log.now.lines table.old.rows →
        OnOk result (AreNoted log.now.lines table.new.rows) }
    ensures before { OnOk result
        (take i (row_at table.new.rows p) ≡ take i (row_at table.old.rows p)) }
    ensures scale { OnOk result (table.new.scale ≡ table.old.scale) }
{
    let mark = table.mark(p, i);
    let k = mark.line;
    if k >= log.len() || k >= table.len() {
        return Ok(None);
    }
    let watch = table.watch(k);
    if watch.0 != b || watch.1 != mark.bound {
        table.take(p, i);
        return Ok(None);
    }
    match look_at(log.line(k).claim(), now) {
        Look::Covers => Ok(Some(k)),
        Look::Unmet(c, bound) => {
            table.file(k, (c, bound), mark.note)?;
            table.take(p, i);
            Ok(None)
        }
        Look::Lacks(c, _) => {
            table.set_note(p, i, c);
            Ok(None)
        }
    }
}

/// A line that covers the claim of the levels `now` and watches a bound of row p from `low` on and
/// below the level of b, whose row it is. If there is none, and each mark has a note of its line,
/// such watches fail there. The last mark is tried first.
fn find_in_row(
    table: &mut WatchTable,
    log: &Log,
    b: u32,
    p: usize,
    low: u64,
    now: &[u64],
) -> Result<Option<u64>, NoMemory>
    requires row { IsRowOf b p }
    requires few { length now.now ≤ buffer_limit }
    ensures some { (I : Instance) (l : ClaimTerm) → AreLevels I l now.now →
        IfOk result (λ found. IfSome found (IsCoveredBy I log.now.lines l)) }
    ensures none { let scale = table.old.scale in AreNoted log.now.lines table.old.rows →
        IfOk result (λ found. IfNone found
        (FailInRow log.now.lines table.new.watches scale now.now b low p)) }
    ensures moved { let lines = log.now.lines in
        OnOk result (AreMoved lines now.now table.old.watches table.new.watches) }
    ensures noted { AreNoted log.now.lines table.old.rows →
        OnOk result (AreNoted log.now.lines table.new.rows) }
    ensures scale { OnOk result (table.new.scale ≡ table.old.scale) }
{
    let high = level_at(now, b as usize);
    for i in (0..table.row_len(p)).rev() {
        let mark = table.mark(p, i);
        if !is_passed(&mark, low, high, now) {
            let found = try_mark(table, log, b, p, i, now)?;
            if found.is_some() {
                return Ok(found);
            }
        }
    }
    Ok(None)
}

/// A line that covers the claim of the levels `now` and watches a bound of buffer b from `low` on
/// and below the level. If there is none, and each mark has a note of its line, such watches fail
/// there. Only the rows of the groups from that of `low` to that of the last bound below the level
/// are gone through, the last one first.
pub(crate) fn find_in(
    table: &mut WatchTable,
    log: &Log,
    b: u32,
    low: u64,
    now: &[u64],
) -> Result<Option<u64>, NoMemory>
    requires few { length now.now ≤ buffer_limit }
    ensures some { (I : Instance) (l : ClaimTerm) → AreLevels I l now.now →
        IfOk result (λ found. IfSome found (IsCoveredBy I log.now.lines l)) }
    ensures none { AreNoted log.now.lines table.old.rows →
        IfOk result (λ found. IfNone found
        (FailAt log.now.lines table.new.watches now.now b low)) }
    ensures moved { let lines = log.now.lines in
        OnOk result (AreMoved lines now.now table.old.watches table.new.watches) }
    ensures noted { AreNoted log.now.lines table.old.rows →
        OnOk result (AreNoted log.now.lines table.new.rows) }
{
    let high = level_at(now, b as usize);
    if high <= low {
        return Ok(None);
    }
    let first = table.row_of(b, low);
    let last = table.row_of(b, high - 1);
    for p in (first..last + 1).rev() {
        let found = find_in_row(table, log, b, p, low, now)?;
        if found.is_some() {
            return Ok(found);
        }
    }
    Ok(None)
}
