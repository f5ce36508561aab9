//! A row of a made instance.

ghost use Rattle.std.specs.Prelude.{◌≡◌, ◌+◌, ◌*◌, ◌^◌, ◌<◌, ◌≤◌, ℕ, IfOk, string_bytes};
ghost use Rattle.dsa_model.specs.Buffer.{buffer_limit};
ghost use Rattle.make_instance.specs.Draws.{state_at};
ghost use Rattle.make_instance.specs.Rows.{gap_in, made_row};
ghost use Rattle.make_instance.specs.Made.{gap_text, record_line, gap_pair_text, record_of};

use crate::draws::Draws;
use dsa_model::NoMemory;
use std::alloc::Global;

/// What a row says of its buffer: moments, bytes, and the moments of a gap.
#[derive(Clone, Copy)]
pub(crate) struct Row {
    pub(crate) lower: u64,
    pub(crate) upper: u64,
    pub(crate) size: u64,
    pub(crate) alignment: u64,
    pub(crate) gap: Option<(u64, u64)>,
}

/// The gap of a lifetime, all of it but its first and its last moment, where it is to have one and
/// has room.
fn gap_in(flag: u64, lower: u64, length: u64) -> Option<(u64, u64)>
    requires { lower + length < 2 ^ 64 }
    ensures { result ≡ gap_in flag lower length }
{
    if flag == 0 && length >= 3 {
        Some((lower + 1, lower + length - 1))
    } else {
        None
    }
}

/// The next row, drawn by five numbers. The caller owes a count of 1 to `BUFFER_LIMIT`.
pub(crate) fn next_row(draws: &mut Draws, count: u64) -> Row
    requires some { 0 < count }
    requires few { count ≤ buffer_limit }
    ensures row { (seed i : ℕ) → draws.old.state ≡ state_at seed (5 * i)
        → result ≡ made_row seed count i }
    ensures state { (seed i : ℕ) → draws.old.state ≡ state_at seed (5 * i)
        → draws.new.state ≡ state_at seed (5 * (i + 1)) }
{
    let lower = draws.below(2 * count);
    let length = 1 + draws.below(16);
    let size = 1 + draws.below(64);
    let alignment = 1 + draws.below(4);
    let flag = draws.below(4);
    Row {
        lower,
        upper: lower + length,
        size,
        alignment,
        gap: gap_in(flag, lower, length),
    }
}

/// A gap's two moments.
fn pair_text(alloc: Global, from: u64, to: u64) -> Result<String, NoMemory>
    ensures { IfOk result (λ text. string_bytes text ≡ gap_pair_text from to) }
{
    Ok(format!(in alloc; "{from}-{to}")?)
}

/// What stands in the field of gaps.
fn gap_text(alloc: Global, gap: Option<(u64, u64)>) -> Result<String, NoMemory>
    ensures { IfOk result (λ text. string_bytes text ≡ gap_text gap) }
{
    match gap {
        Some((from, to)) => pair_text(alloc, from, to),
        None => Ok(String::new(alloc)),
    }
}

/// The line of a row.
pub(crate) fn line(alloc: Global, number: u64, row: &Row) -> Result<String, NoMemory>
    ensures { IfOk result (λ text. string_bytes text ≡ record_line (record_of number row.now)) }
{
    let Row {
        lower,
        upper,
        size,
        alignment,
        gap,
    } = *row;
    let gap = gap_text(alloc, gap)?;
    Ok(format!(in alloc; "b{number},{lower},{upper},{size},{alignment},{gap}\n")?)
}
