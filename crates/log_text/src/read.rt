//! Reading a log.

ghost use Rattle.std.specs.Prelude.{◌≡◌, ◌≢◌, ◌≤◌, ◌<◌, [], All, IfNone, IfOk, IfSome, List, MatchResult, ℕ};
ghost use Rattle.dsa_model.specs.Fails.{UnlessNoMemory};
ghost use Rattle.dsa_model.specs.Limits.{number_limit};
ghost use Rattle.log_text.specs.Faults.{IsFirstFault};
ghost use Rattle.log_text.specs.RawLogs.{IsRawKept, IsRawLineKept};
ghost use Rattle.log_text.specs.Rows.{HasNoHeader, IsFaultAfter, IsGoodRead, IsHeaderRead, IsStarted};
ghost use Rattle.log_text.specs.Says.{Says};
ghost use Rattle.log_text.specs.declared.raw.RawLog.{RawLog as Raw};
ghost use Rattle.log_text.specs.declared.fault.TextFault.{TextFault as Fault};

use crate::cursor::Cursor;
use crate::limits::{is_rising, is_within};
use crate::room::Room;
use crate::rows::{Read, read_row};
use crate::said::{Said, Unsaid, line_said};
use crate::{RawLine, RawLines, RawLog, TextFault};
use dsa_model::{Fail, NUMBER_LIMIT};
use std::alloc::Global;

/// The numbers of a header, each where it fits 64 bits.
#[derive(Clone, Copy)]
struct Header {
    version: Option<u64>,
    count: Option<u64>,
    capacity: Option<u64>,
}

/// Reads a header of any numbers.
fn read_header(cursor: &mut Cursor) -> Option<Header>
    ensures some { IfSome result
        (λ h. IsHeaderRead cursor.old h.version h.count h.capacity cursor.new) }
    ensures none { IfNone result (HasNoHeader cursor.old) }
{
    if !cursor.take(b"dsalog ") {
        return None;
    }
    let version = cursor.field(b" ")?;
    let count = cursor.field(b" ")?;
    let capacity = cursor.field(b"\n")?;
    Some(Header {
        version,
        count,
        capacity,
    })
}

/// The header of a log of a version that is read.
#[derive(Clone, Copy)]
struct Sizes {
    version: u64,
    count: u64,
    capacity: u64,
}

/// The number, where it is within its limit.
fn within_limit(number: Option<u64>) -> Option<u64>
    ensures some { IfSome result (λ n. (number ≡ Some n) × (n ≤ number_limit)) }
    ensures none { IfNone result ((n : ℕ) → number ≡ Some n → number_limit < n) }
{
    let n = number?;
    if n <= NUMBER_LIMIT { Some(n) } else { None }
}

/// Reads the header of a log.
fn read_sizes(cursor: &mut Cursor) -> Result<Sizes, TextFault>
    ensures { MatchResult result
        (λ s. IsStarted cursor.old s.version s.count s.capacity cursor.new)
        (λ fault. IsFirstFault cursor.old fault) }
{
    let Some(header) = read_header(cursor) else {
        return Err(TextFault::NotLog);
    };
    let Some(version) = header.version else {
        return Err(TextFault::NotLog);
    };
    let Some(count) = within_limit(header.count) else {
        return Err(TextFault::NotLog);
    };
    let Some(capacity) = within_limit(header.capacity) else {
        return Err(TextFault::NotLog);
    };
    if version != 1 && version != 2 {
        return Err(TextFault::BadVersion { version });
    }
    Ok(Sizes {
        version,
        count,
        capacity,
    })
}

/// Reads the row that comes after these lines.
fn read_good_row(
    alloc: Global,
    room: &mut Room,
    cursor: &mut Cursor,
    version: u64,
    lines: &[RawLine],
) -> Result<Said, Fail<TextFault>>
    requires some { cursor.old ≢ [] }
    requires kept { All IsRawLineKept lines.now }
    ensures { UnlessNoMemory result
        (λ said. IsGoodRead version lines.now cursor.old said cursor.new)
        (λ fault. IsFaultAfter version lines.now cursor.old fault) }
{
    let line = lines.len() as u64;
    let row = match read_row(alloc, room, cursor, version) {
        Ok(row) => row,
        Err(Fail::NoMemory) => return Err(Fail::NoMemory),
        Err(Fail::Fault(_)) => return Err(Fail::Fault(TextFault::BadLine { line })),
    };
    if !is_within(&row) {
        return Err(Fail::Fault(TextFault::NumberTooLarge { line }));
    }
    if !is_rising(&row) {
        return Err(Fail::Fault(TextFault::NotRising { line }));
    }
    match row {
        Read::End(end) => Ok(Said::End(end)),
        Read::Line(spelled) => match line_said(alloc, &mut room.pairs, lines, spelled) {
            Ok(said) => Ok(Said::Line(said)),
            Err(Fail::NoMemory) => Err(Fail::NoMemory),
            Err(Fail::Fault(Unsaid::NoBase)) => Err(Fail::Fault(TextFault::BadBase { line })),
            Err(Fail::Fault(Unsaid::NoChange)) => Err(Fail::Fault(TextFault::BadChange { line })),
        },
    }
}

/// Reads the text of a log, or finds its first fault.
fn read_text(alloc: Global, bytes: &[u8]) -> Result<RawLog, Fail<TextFault>>
    ensures { UnlessNoMemory result
        (λ raw. Says bytes.now raw)
        (λ fault. IsFirstFault bytes.now fault) }
{
    let mut cursor = Cursor::new(bytes);
    let sizes = match read_sizes(&mut cursor) {
        Ok(sizes) => sizes,
        Err(fault) => return Err(Fail::Fault(fault)),
    };
    let mut room = Room::new(alloc);
    let mut lines = Vec::new(alloc);
    while !cursor.is_done() {
        match read_good_row(
            alloc,
            &mut room,
            &mut cursor,
            sizes.version,
            lines.as_slice(),
        )? {
            Said::Line(line) => lines.push(line)?,
            Said::End(end) => {
                if !cursor.is_done() {
                    return Err(Fail::Fault(TextFault::AfterEnd));
                }
                return Ok(RawLog {
                    count: sizes.count,
                    capacity: sizes.capacity,
                    lines: RawLines::from_vec(lines),
                    end,
                });
            }
        }
    }
    Err(Fail::Fault(TextFault::NoEnd))
}

/// Reads the text of a log, of either version. The answer is the one log, by its numbers, that the
/// bytes say, its claims in full; else the first fault, which is there exactly where the bytes say
/// no log. In a log that was read no claim is empty, the buffers of claims and of cites rise, a
/// moment is at most 2^62 - 1 and each other number at most 2^60.
///
/// One pass over the bytes; a claim that is a difference takes the time and the memory of its
/// changes and of what they give. So a short text of version 2 may stand for claims that are far
/// larger, and end in want of memory.
pub fn read_log(alloc: Global, bytes: &[u8]) -> Result<RawLog, Fail<TextFault>>
    ensures sound { UnlessNoMemory result
        (λ raw. Says bytes.now raw)
        (λ fault. IsFirstFault bytes.now fault) }
    ensures complete { (raw : Raw) → Says bytes.now raw →
        UnlessNoMemory result (λ read. read ≡ raw) (λ _. ⊥) }
    ensures cause { (fault : Fault) → IsFirstFault bytes.now fault →
        UnlessNoMemory result (λ _. ⊥) (λ found. found ≡ fault) }
    ensures kept { IfOk result IsRawKept }
{
    read_text(alloc, bytes)
}
