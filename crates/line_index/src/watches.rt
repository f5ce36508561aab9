//! One watched bound for each line of a log, and a noted buffer for each mark.

ghost use Rattle.std.specs.Prelude.{◌≡◌, ◌≤◌, ◌<◌, ◌↔◌, ℕ, [], List, true, false, IfNone, IfOk, IfSome, IsTrue, OnOk, length};
ghost use Rattle.dsa_terms.specs.Buffers.{Instance};
ghost use Rattle.dsa_terms.specs.Claims.{Claim as ClaimTerm, IsIn};
ghost use Rattle.dsa_model.specs.Buffer.{buffer_limit};
ghost use Rattle.canonical_order.specs.Levels.{AreLevels};
ghost use Rattle.line_index.specs.Covered.{IsCoveredBy, NoneCovers};
ghost use Rattle.line_index.specs.Looks.{IsUnmet};
ghost use Rattle.line_index.specs.Watches.{AreNoted, AreRaised, AreTheRaised, AreWatched};
ghost use Rattle.line_index.specs.Watching.{AreOwnMoved, IsWatched};

use crate::levels::level_at;
use crate::look::{Look, look_at};
use crate::row_search::find_in;
use crate::watch_table::WatchTable;
use canonical_order::Claim;
use dsa_model::NoMemory;
use refute_log::Log;
use std::alloc::Global;
use std::marker::Model;

/// Whether the pair is one of the claim's.
fn has(claim: &Claim, pair: (u32, u64)) -> bool
    ensures { IsTrue result ↔ IsIn pair claim.now }
{
    claim.pairs().contains(&pair)
}

/// Yes only where the pair is a bound of k that the claim of the levels does not meet, though it
/// has the buffer.
fn is_unmet(k: &Claim, levels: &[u64], pair: (u32, u64)) -> bool
    ensures { result ≡ true → IsUnmet k.now levels.now pair }
{
    let level = level_at(levels, pair.0 as usize);
    if level == 0 || pair.1 < level {
        return false;
    }
    has(k, pair)
}

/// Whether the line of that number covers the claim of the levels. If not, its watch is then one of
/// the line's bounds, which the claim does not meet if it has all buffers of the line. A new mark
/// has the buffer of the watch for its note.
fn ask_line(table: &mut WatchTable, log: &Log, levels: &[u64], k: u64) -> Result<bool, NoMemory>
    requires in_log { k < length log.now.lines }
    requires in_table { k < length table.old.watches }
    ensures covered { (I : Instance) (l : ClaimTerm) → AreLevels I l levels.now →
        IfOk result (λ covers. covers ≡ true → IsCoveredBy I log.now.lines l k) }
    ensures watched { IfOk result (λ covers. covers ≡ false →
        IsWatched log.now.lines table.new.watches levels.now k) }
    ensures noted { AreNoted log.now.lines table.old.rows →
        OnOk result (AreNoted log.now.lines table.new.rows) }
    ensures moved { let lines = log.now.lines in
        OnOk result (AreOwnMoved lines levels.now table.old.watches table.new.watches) }
    ensures count { OnOk result (length table.new.watches ≡ length table.old.watches) }
{
    let _count = log.len();
    let claim = log.line(k).claim();
    let watch = table.watch(k);
    if is_unmet(claim, levels, watch) {
        return Ok(false);
    }
    match look_at(claim, levels) {
        Look::Covers => Ok(true),
        Look::Unmet(b, bound) => {
            table.file(k, (b, bound), b)?;
            Ok(false)
        }
        Look::Lacks(b, bound) => {
            if !has(claim, watch) {
                table.file(k, (b, bound), b)?;
            }
            Ok(false)
        }
    }
}

/// For each line of a log one bound of its claim, the watch. As long as a claim does not meet the
/// watch of a line, the line does not cover it. So where a search goes down to a child, only the
/// lines whose watch the child meets and the claim above does not are tried: such a line covers the
/// child, gets another watch, or has a buffer that the child has not and keeps its watch. Going
/// back up undoes nothing, since lows fall on the way.
///
/// The lines that watch a bound of a buffer have marks in the rows of that buffer, one row for each
/// group of bounds. Groups are about equally wide in bytes and share the capacity out, and the last
/// one has all higher bounds too. So only the groups are looked through that the level rose
/// through. A mark holds a note, one of its line's buffers: the one that a claim which met the mark
/// was last found to lack, and any until then. A child without it is not covered by the line, which
/// is not read. Contracts see the watches by line and the marks by row.
///
/// A claim is given by its levels: for each buffer of the instance one more than its low in bytes,
/// and 0 where it is not in the claim.
#[derive(Drop)]
pub struct Watches {
    table: WatchTable,
}

impl Model for Watches {
    ghost use Rattle.line_index.specs.Watches.{LineWatches};

    ghost Value = { LineWatches };

    ghost view = { λ w. record { entries = w.table.watches; rows = w.table.rows } };
}

impl Watches {
    /// No lines. The capacity, in bytes, says how wide the groups of bounds are: nothing but the
    /// time of a look-up hangs on it.
    pub fn new(alloc: Global, capacity: u64) -> Watches
        ensures { result ≡ record { entries = []; rows = [] } }
    {
        Watches {
            table: WatchTable::new(alloc, capacity),
        }
    }

    /// A line that covers the claim of the levels, looked for from line `asked` on: all lines are
    /// asked where that is 0. If none is found, and the first `asked` lines are watched there, then
    /// all are, and none covers the claim. As many first lines as are watched at a claim above stay
    /// watched there. Where each mark has a note of its line, each still has one.
    pub fn ask(&mut self, log: &Log, levels: &[u64], asked: u64) -> Result<Option<u64>, NoMemory>
        ensures none { AreWatched log.now.lines self.old levels.now asked →
            IfOk result (λ found. IfNone found
            (AreWatched log.now.lines self.new levels.now (length log.now.lines))) }
        ensures uncovered { (I : Instance) (l : ClaimTerm) → AreLevels I l levels.now →
            AreWatched log.now.lines self.old levels.now asked →
            IfOk result (λ found. IfNone found (NoneCovers I log.now.lines l)) }
        ensures some { (I : Instance) (l : ClaimTerm) → AreLevels I l levels.now →
            IfOk result (λ found. IfSome found (IsCoveredBy I log.now.lines l)) }
        ensures kept { (above : List ℕ) (n : ℕ) → AreRaised above levels.now →
            AreWatched log.now.lines self.old above n →
            IfOk result (λ _. AreWatched log.now.lines self.new above n) }
        ensures noted { AreNoted log.now.lines self.old.rows →
            OnOk result (AreNoted log.now.lines self.new.rows) }
    {
        self.table.extend(log.len())?;
        for k in (asked..log.len()).rev() {
            let covers = ask_line(&mut self.table, log, levels, k)?;
            if covers {
                return Ok(Some(k));
            }
        }
        Ok(None)
    }

    /// A line that covers the claim of the levels `now`, a child of one whose levels are `before`,
    /// looked for at the buffers that are higher now, each of which is given with its level before.
    /// If none is found, these are all such buffers, no level fell, no buffer is new, each mark has
    /// a note of its line, and all lines are watched at the claim before, then all are at the claim
    /// now, and none covers it. As many first lines as are watched at a claim above stay watched
    /// there. Where each mark has a note of its line, each still has one. There are at most
    /// `BUFFER_LIMIT` levels.
    pub fn find(
        &mut self,
        log: &Log,
        now: &[u64],
        raised: &[(u32, u64)],
    ) -> Result<Option<u64>, NoMemory>
        requires few { length now.now ≤ buffer_limit }
        ensures none { (before : List ℕ) → AreNoted log.now.lines self.old.rows →
            AreRaised before now.now → AreTheRaised before now.now raised.now →
            AreWatched log.now.lines self.old before (length log.now.lines) →
            IfOk result (λ found. IfNone found
            (AreWatched log.now.lines self.new now.now (length log.now.lines))) }
        ensures uncovered { (I : Instance) (l : ClaimTerm) → AreLevels I l now.now →
            (before : List ℕ) → AreNoted log.now.lines self.old.rows →
            AreRaised before now.now → AreTheRaised before now.now raised.now →
            AreWatched log.now.lines self.old before (length log.now.lines) →
            IfOk result (λ found. IfNone found (NoneCovers I log.now.lines l)) }
        ensures some { (I : Instance) (l : ClaimTerm) → AreLevels I l now.now →
            IfOk result (λ found. IfSome found (IsCoveredBy I log.now.lines l)) }
        ensures kept { (above : List ℕ) (n : ℕ) → AreRaised above now.now →
            AreWatched log.now.lines self.old above n →
            IfOk result (λ _. AreWatched log.now.lines self.new above n) }
        ensures noted { AreNoted log.now.lines self.old.rows →
            OnOk result (AreNoted log.now.lines self.new.rows) }
    {
        for pair in raised {
            let found = find_in(&mut self.table, log, pair.0, pair.1, now)?;
            if found.is_some() {
                return Ok(found);
            }
        }
        Ok(None)
    }
}
