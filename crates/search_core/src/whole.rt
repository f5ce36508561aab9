//! The search through all parts.

ghost use Rattle.std.specs.Prelude.{◌≡◌, ◌+◌, ◌<◌, ◌≤◌, IfOk, length};
ghost use Rattle.dsa_terms.specs.Parts.{offsets_of, parts as parts_of, whole_work};
ghost use Rattle.lifetime.specs.SectionList.{AreSectionsOf};
ghost use Rattle.refute_log.specs.Decided.{IfSpent};
ghost use Rattle.search_core.specs.Meters.{AreMore, AreSpent};
ghost use Rattle.search_core.specs.Outcomes.{IsDecided, LinesAreCounted, UnlessSpent};

use crate::meter::{Meter, Spent};
use crate::part::{Piece, search_part};
use branching::Task;
use dsa_model::{Fail, Instance, NoMemory};
use lifetime::Sections;
use refute_log::Decided;
use split_sections::Parts;
use std::alloc::Global;

/// The offsets of all buffers in order; the first seat of a buffer counts, and where it has none
/// its offset is 0.
fn offsets(alloc: Global, instance: &Instance, seats: &[(u32, u64)]) -> Result<Vec<u64>, NoMemory>
    ensures { IfOk result (λ v. v.items ≡ offsets_of instance.now seats.now) }
{
    let mut offsets = vec![in alloc; 0u64; instance.len() as usize]?;
    for i in (0..seats.len()).rev() {
        let b = seats[i].0 as usize;
        if b < offsets.len() {
            offsets[b] = seats[i].1;
        }
    }
    Ok(offsets)
}

/// Searches part after part, up to the first that has no layout.
pub(crate) fn search_parts(
    alloc: Global,
    task: &Task,
    meter: &mut Meter,
    sections: &Sections,
    parts: &Parts,
) -> Result<Decided, NoMemory>
    requires sections { AreSectionsOf task.now.instance.now sections.now }
    requires parts { parts.now ≡ parts_of task.now.instance.now }
    ensures most { meter.new.most ≡ meter.old.most }
    ensures units { meter.old.used ≤ meter.new.used }
    ensures used { let most = whole_work task.now.instance.now task.now.capacity in
        meter.new.used ≤ meter.old.used + most }
    ensures spent { let most = whole_work task.now.instance.now task.now.capacity in
        IfOk result (λ d.
        IfSpent d (AreSpent meter.new × (meter.new.used < meter.old.used + most))) }
    ensures taken { 0 < length task.now.instance.now →
        IfOk result (UnlessSpent (AreMore meter.old meter.new)) }
    ensures counted { IfOk result (LinesAreCounted meter.old meter.new) }
    ensures decided { IfOk result (IsDecided task.now.instance.now task.now.capacity) }
{
    let mut seats = Vec::new(alloc);
    for p in 0..parts.count() {
        match search_part(alloc, task, meter, sections, parts.members(p)) {
            Ok(Piece::Seats(found)) => seats.extend_from_slice(&found)?,
            Ok(Piece::Refuted(log)) => return Ok(Decided::Refuted(log)),
            Err(Fail::Fault(Spent)) => return Ok(Decided::Spent),
            Err(Fail::NoMemory) => return Err(NoMemory),
        }
    }
    let offsets = offsets(alloc, task.instance, &seats)?;
    Ok(Decided::Layout(offsets))
}
