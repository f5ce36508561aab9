//! Gaps in fields.

ghost use Rattle.std.specs.Prelude.{◌≡◌, ◌==◌, ◌+◌, ◌≤◌, IfOk, IfSome, length, map, option_map, position};
ghost use Rattle.std.specs.List.{slice_split};
ghost use Rattle.csv_instance.specs.Gaps.{gap_of, gaps_of};

use dsa_model::{NoMemory, TIME_LIMIT, parse_number};
use std::alloc::Global;

/// Where the first hyphen of a piece stands.
fn find_hyphen(piece: &[u8]) -> Option<usize>
    ensures { result ≡ position (λ c. c == 45) piece.now }
{
    piece.iter().position(|byte| *byte == b'-')
}

/// The gap that a piece writes.
fn read_gap(piece: &[u8]) -> Option<(u64, u64)>
    ensures { result ≡ gap_of piece.now }
{
    let Some(hyphen) = find_hyphen(piece) else {
        return None;
    };
    let Some(from) = parse_number(&piece[..hyphen], TIME_LIMIT) else {
        return None;
    };
    match parse_number(&piece[hyphen + 1..], TIME_LIMIT) {
        Some(to) => Some((from, to)),
        None => None,
    }
}

/// The pieces of a field between its spaces.
fn split_pieces(alloc: Global, field: &[u8]) -> Result<Vec<&[u8]>, NoMemory>
    ensures pieces { IfOk result
        (λ pieces. map (λ piece. piece.now) pieces.items ≡ slice_split (λ c. c == 32) field.now) }
    ensures count { IfOk result (λ pieces. length pieces.items ≤ length field.now + 1) }
{
    match field.split(|byte| *byte == b' ').collect(alloc) {
        Ok(pieces) => Ok(pieces),
        Err(_) => Err(NoMemory),
    }
}

/// The gaps that a field writes, in their order, if it writes any or is empty.
pub(crate) fn read_gaps(alloc: Global, field: &[u8]) -> Result<Option<Vec<(u64, u64)>>, NoMemory>
    ensures gaps { IfOk result (λ o. option_map (λ gaps. gaps.items) o ≡ gaps_of field.now) }
    ensures count { IfOk result (λ o. IfSome o (λ gaps. length gaps.items ≤ length field.now + 1)) }
{
    let mut gaps = Vec::new(alloc);
    if field.is_empty() {
        return Ok(Some(gaps));
    }
    let pieces = split_pieces(alloc, field)?;
    for piece in &pieces {
        let Some(gap) = read_gap(piece) else {
            return Ok(None);
        };
        gaps.push(gap)?;
    }
    Ok(Some(gaps))
}
