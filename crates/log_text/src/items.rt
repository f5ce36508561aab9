//! Reading the claim of a line, and its cites.

ghost use Rattle.std.specs.Prelude.{◌≡◌, ◌++◌, IfNone, IfSome};
ghost use Rattle.dsa_model.specs.Fails.{UnlessNoMemory};
ghost use Rattle.log_text.specs.RawTexts.{cite_text, pair_text};
ghost use Rattle.log_text.specs.Reading.{HasNoItem, HasNoList, IsItemRead, IsListEnd, IsListRead, capped_cite, capped_pair};

use crate::cursor::Cursor;
use crate::room::copy_of;
use crate::{RawCite, RawCites, RawClaim};
use dsa_model::Fail;
use std::alloc::Global;

/// The bytes have not the form that is read.
#[derive(Clone, Copy)]
pub(crate) struct NoForm;

/// Reads a buffer and its bound.
#[inline(always)]
pub(crate) fn read_pair(cursor: &mut Cursor) -> Option<(u64, u64)>
    ensures some { IfSome result
        (λ value. IsItemRead pair_text capped_pair cursor.old value cursor.new) }
    ensures none { IfNone result (HasNoItem pair_text cursor.old) }
{
    let read = cursor.marked()?;
    if read.mark == b'=' {
        Some((read.first, read.second))
    } else {
        None
    }
}

/// Reads a buffer and its cite.
#[inline(always)]
fn read_cite(cursor: &mut Cursor) -> Option<(u64, RawCite)>
    ensures some { IfSome result
        (λ value. IsItemRead cite_text capped_cite cursor.old value cursor.new) }
    ensures none { IfNone result (HasNoItem cite_text cursor.old) }
{
    let read = cursor.marked()?;
    match read.mark {
        b'>' => Some((read.first, RawCite::Line(read.second))),
        b'<' => Some((read.first, RawCite::Below(read.second))),
        b'~' => Some((read.first, RawCite::Twin(read.second))),
        _ => None,
    }
}

/// Reads a claim and these bytes after it, in that room. Its numbers are of 64 bits, as `cap` gives
/// them.
pub(crate) fn read_claim(
    alloc: Global,
    room: &mut Vec<(u64, u64)>,
    cursor: &mut Cursor,
    end: &[u8],
) -> Result<RawClaim, Fail<NoForm>>
    requires { IsListEnd end.now }
    ensures { UnlessNoMemory result
        (λ claim. IsListRead pair_text capped_pair end.now cursor.old claim cursor.new)
        (λ _. HasNoList pair_text end.now cursor.old) }
{
    room.clear();
    let Some(first) = read_pair(cursor) else {
        return Err(Fail::Fault(NoForm));
    };
    room.push(first)?;
    while cursor.next_item() {
        let Some(next) = read_pair(cursor) else {
            return Err(Fail::Fault(NoForm));
        };
        room.push(next)?;
    }
    if !cursor.take(end) {
        return Err(Fail::Fault(NoForm));
    }
    let pairs = copy_of(alloc, room.as_slice())?;
    Ok(RawClaim::from_vec(pairs))
}

/// Reads cites and these bytes after them, in that room. Their numbers are of 64 bits, as `cap`
/// gives them.
pub(crate) fn read_cites(
    alloc: Global,
    room: &mut Vec<(u64, RawCite)>,
    cursor: &mut Cursor,
    end: &[u8],
) -> Result<RawCites, Fail<NoForm>>
    requires { IsListEnd end.now }
    ensures { UnlessNoMemory result
        (λ cites. IsListRead cite_text capped_cite end.now cursor.old cites cursor.new)
        (λ _. HasNoList cite_text end.now cursor.old) }
{
    room.clear();
    let Some(first) = read_cite(cursor) else {
        return Err(Fail::Fault(NoForm));
    };
    room.push(first)?;
    while cursor.next_item() {
        let Some(next) = read_cite(cursor) else {
            return Err(Fail::Fault(NoForm));
        };
        room.push(next)?;
    }
    if !cursor.take(end) {
        return Err(Fail::Fault(NoForm));
    }
    let cites = copy_of(alloc, room.as_slice())?;
    Ok(RawCites::from_vec(cites))
}
