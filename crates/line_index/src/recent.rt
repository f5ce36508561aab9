//! Lines that covered last.

ghost use Rattle.std.specs.Prelude.{◌≡◌, ◌^◌, ◌<◌, ◌≤◌, true, IfSome, length, slice_index};
ghost use Rattle.std.specs.List.{All};
ghost use Rattle.dsa_terms.specs.Claims.{Claim as ClaimTerm, child as child_of};
ghost use Rattle.canonical_order.specs.Claims.{entry_of};
ghost use Rattle.canonical_order.specs.Levels.{AreLevels};
ghost use Rattle.line_index.specs.Covered.{IsCoveredBy};

use crate::bits::bits_of;
use crate::child_cover::covers_child;
use dsa_model::{Instance, NoMemory};
use refute_log::Log;
use std::alloc::Global;

/// How many lines are kept for each buffer.
const KEPT: usize = 8;

/// A line, with the bits of its claim's buffers.
#[derive(Clone, Copy)]
struct Seen {
    line: u64,
    bits: u64,
}

/// No line.
const NO_LINE: Seen = Seen {
    line: u64::MAX,
    bits: u64::MAX,
};

/// The line of that number, if the log has it.
fn seen_line(log: &Log, line: u64) -> Seen {
    if line >= log.len() {
        return NO_LINE;
    }
    let bits = bits_of(log.line(line).claim());
    Seen { line, bits }
}

/// Yes only where the log has the line of that number, and it covers the child by b of the claim of
/// the levels.
fn is_child_covered_by(log: &Log, instance: &Instance, levels: &[u64], b: u32, k: u64) -> bool
    requires count { length levels.now ≡ length instance.now }
    requires low { All (λ level. level ≤ 2 ^ 61) levels.now }
    requires b_in { 0 < slice_index levels.now b }
    ensures { let I = instance.now in (l : ClaimTerm) → AreLevels I l levels.now → result ≡ true →
        IsCoveredBy I log.now.lines (child_of I l (entry_of l b)) k }
{
    if k >= log.len() {
        return false;
    }
    covers_child(instance, levels, log.line(k).claim(), b)
}

/// For each buffer of an instance the lines that covered last where it was chosen, the last first.
/// The next child by the same buffer is mostly covered by one of them, so they are tried before it
/// is made, but for those with a buffer that the child is said to lack. It is a guess alone: which
/// lines are kept decides nothing but how soon one is found.
#[derive(Drop)]
pub struct Recent {
    rows: Vec<[Seen; KEPT]>,
}

impl Recent {
    /// No lines, for an instance of so many buffers. Later calls take no memory.
    pub fn new(alloc: Global, count: u32) -> Result<Recent, NoMemory> {
        let rows = vec![in alloc; [NO_LINE; KEPT]; count as usize]?;
        Ok(Recent { rows })
    }

    /// Puts the line first in the row of the buffer, and drops the last one if it was not there.
    pub fn note(&mut self, log: &Log, b: u32, line: u64) {
        if (b as usize) < self.rows.len() {
            let row = &mut self.rows[b as usize];
            let mut moved = NO_LINE;
            for i in 0..KEPT {
                let next = row[i];
                row[i] = moved;
                if next.line == line {
                    row[0] = next;
                    return;
                }
                moved = next;
            }
            row[0] = seen_line(log, line);
        }
    }

    /// A line that covers the child by b of the claim of the levels, if one of those that are kept
    /// for b does and has no missing buffer: one whose bit is missing (`bit_of`). Nothing is said
    /// where there is none. The claim has b, and no level is above 2^61.
    pub fn find(
        &self,
        log: &Log,
        instance: &Instance,
        levels: &[u64],
        b: u32,
        missing: u64,
    ) -> Option<u64>
        requires count { length levels.now ≡ length instance.now }
        requires low { All (λ level. level ≤ 2 ^ 61) levels.now }
        requires b_in { 0 < slice_index levels.now b }
        ensures { let I = instance.now in (l : ClaimTerm) → AreLevels I l levels.now →
            IfSome result (IsCoveredBy I log.now.lines (child_of I l (entry_of l b))) }
    {
        if (b as usize) < self.rows.len() {
            let row = &self.rows[b as usize];
            for i in 0..KEPT {
                let Seen { line, bits } = row[i];
                if bits & missing == 0 && is_child_covered_by(log, instance, levels, b, line) {
                    return Some(line);
                }
            }
        }
        None
    }
}
