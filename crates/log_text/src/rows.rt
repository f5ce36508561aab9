//! Reading a line of the log, or its end.

ghost use Rattle.std.specs.Prelude.{◌≡◌, ◌++◌, IfNone, IfSome, ℕ};
ghost use Rattle.dsa_model.specs.Fails.{UnlessNoMemory};
ghost use Rattle.log_text.specs.Faults.{HasNoRow};
ghost use Rattle.log_text.specs.Edits.{EndsChanges};
ghost use Rattle.log_text.specs.Reading.{HasNoStart, IsStartRead};
ghost use Rattle.log_text.specs.Rows.{HasNoBase, HasNoCases, HasNoDifference, HasNoOver, HasNoSpelling, IsCasesRead, IsDifferenceRead, IsOverRead, IsRowRead, IsSpellingRead, spelled_value, spelling_value};

use crate::changes::{Edit, read_changes};
use crate::cursor::{Cursor, cap};
use crate::items::{NoForm, read_cites, read_claim};
use crate::room::Room;
use crate::{RawCites, RawClaim};
use dsa_model::Fail;
use std::alloc::Global;

/// The version whose claims may be differences.
const DIFFERENCES: u64 = 2;

/// A claim as a text spells it: in full, or as changes of the claim of the line of that number.
#[derive(Drop)]
pub(crate) enum ReadClaim {
    Full(RawClaim),
    From(u64, Vec<Edit>),
}

/// A line as a text spells it.
#[derive(Drop)]
pub(crate) enum ReadLine {
    Over {
        moment: u64,
        height: u64,
        modulus: u64,
        claim: ReadClaim,
    },
    Cases {
        claim: ReadClaim,
        cites: RawCites,
    },
}

/// A line of the log, or its end. Numbers of the text above 64 bits stand as the greatest of these.
#[derive(Drop)]
pub(crate) enum Read {
    Line(ReadLine),
    End(u64),
}

/// The numbers of an Over line.
#[derive(Clone, Copy)]
struct Start {
    moment: u64,
    height: u64,
    modulus: u64,
}

/// Reads the numbers of an Over line, up to its claim.
fn read_start(cursor: &mut Cursor) -> Option<Start>
    ensures some { IfSome result
        (λ s. IsStartRead cursor.old s.moment s.height s.modulus cursor.new) }
    ensures none { IfNone result (HasNoStart cursor.old) }
{
    let moment = cursor.field(b" ")?;
    let height = cursor.field(b" ")?;
    let modulus = cursor.field(b" : ")?;
    Some(Start {
        moment: cap(moment),
        height: cap(height),
        modulus: cap(modulus),
    })
}

/// Reads a claim in full and these bytes after it, where no version has a difference.
fn read_full(
    alloc: Global,
    room: &mut Room,
    cursor: &mut Cursor,
    end: &[u8],
) -> Result<ReadClaim, Fail<NoForm>>
    requires { EndsChanges end.now }
    ensures { (version : ℕ) → (version ≡ 2 → HasNoBase cursor.old) → UnlessNoMemory result
        (λ claim. IsSpellingRead version end.now cursor.old (spelling_value claim) cursor.new)
        (λ _. HasNoSpelling version end.now cursor.old) }
{
    match read_claim(alloc, &mut room.pairs, cursor, end) {
        Ok(claim) => Ok(ReadClaim::Full(claim)),
        Err(fault) => Err(fault),
    }
}

/// Reads a difference after its first byte, and these bytes after it.
fn read_difference(
    alloc: Global,
    cursor: &mut Cursor,
    end: &[u8],
) -> Result<ReadClaim, Fail<NoForm>>
    requires { EndsChanges end.now }
    ensures { UnlessNoMemory result
        (λ claim. IsDifferenceRead end.now cursor.old (spelling_value claim) cursor.new)
        (λ _. HasNoDifference end.now cursor.old) }
{
    let Some(base) = cursor.capped_number() else {
        return Err(Fail::Fault(NoForm));
    };
    match read_changes(alloc, cursor, end) {
        Ok(changes) => Ok(ReadClaim::From(base, changes)),
        Err(fault) => Err(fault),
    }
}

/// Reads a claim of that version and these bytes after it.
fn read_spelling(
    alloc: Global,
    room: &mut Room,
    cursor: &mut Cursor,
    version: u64,
    end: &[u8],
) -> Result<ReadClaim, Fail<NoForm>>
    requires { EndsChanges end.now }
    ensures { UnlessNoMemory result
        (λ claim. IsSpellingRead version end.now cursor.old (spelling_value claim) cursor.new)
        (λ _. HasNoSpelling version end.now cursor.old) }
{
    if version != DIFFERENCES {
        return read_full(alloc, room, cursor, end);
    }
    if !cursor.take(b"@") {
        return read_full(alloc, room, cursor, end);
    }
    read_difference(alloc, cursor, end)
}

/// Reads an Over line after its first word.
fn read_over(
    alloc: Global,
    room: &mut Room,
    cursor: &mut Cursor,
    version: u64,
) -> Result<ReadLine, Fail<NoForm>>
    ensures { UnlessNoMemory result
        (λ line. IsOverRead version cursor.old (spelled_value line) cursor.new)
        (λ _. HasNoOver version cursor.old) }
{
    let Some(start) = read_start(cursor) else {
        return Err(Fail::Fault(NoForm));
    };
    let claim = read_spelling(alloc, room, cursor, version, b"\n")?;
    Ok(ReadLine::Over {
        moment: start.moment,
        height: start.height,
        modulus: start.modulus,
        claim,
    })
}

/// Reads a Cases line after its first word.
fn read_cases(
    alloc: Global,
    room: &mut Room,
    cursor: &mut Cursor,
    version: u64,
) -> Result<ReadLine, Fail<NoForm>>
    ensures { UnlessNoMemory result
        (λ line. IsCasesRead version cursor.old (spelled_value line) cursor.new)
        (λ _. HasNoCases version cursor.old) }
{
    let claim = read_spelling(alloc, room, cursor, version, b" : ")?;
    let cites = read_cites(alloc, &mut room.cites, cursor, b"\n")?;
    Ok(ReadLine::Cases { claim, cites })
}

/// Reads a line of that version, or the end.
pub(crate) fn read_row(
    alloc: Global,
    room: &mut Room,
    cursor: &mut Cursor,
    version: u64,
) -> Result<Read, Fail<NoForm>>
    ensures { UnlessNoMemory result
        (λ read. IsRowRead version cursor.old read cursor.new)
        (λ _. HasNoRow version cursor.old) }
{
    if cursor.take(b"over ") {
        return Ok(Read::Line(read_over(alloc, room, cursor, version)?));
    }
    if cursor.take(b"case : ") {
        return Ok(Read::Line(read_cases(alloc, room, cursor, version)?));
    }
    if cursor.take(b"end ") {
        if let Some(end) = cursor.field(b"\n") {
            return Ok(Read::End(cap(end)));
        }
    }
    Err(Fail::Fault(NoForm))
}
