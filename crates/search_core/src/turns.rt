//! The search through the claims of one part, one step after another.

ghost use Rattle.std.specs.Prelude.{◌≡◌, ◌+◌, ◌<◌, ◌≤◌, [], None, IfOk, OnOk, length};
ghost use Rattle.std.specs.List.{All};
ghost use Rattle.dsa_terms.specs.Claims.{Rises};
ghost use Rattle.dsa_terms.specs.Parts.{whole};
ghost use Rattle.dsa_terms.specs.Search.{work};
ghost use Rattle.dsa_model.specs.Fails.{UnlessNoMemory};
ghost use Rattle.lifetime.specs.SectionList.{AreSectionsOf};
ghost use Rattle.branching.specs.Logs.{Extends, IsSearchLog};
ghost use Rattle.search_core.specs.Descents.{IsPlace, owed, sky_root};
ghost use Rattle.search_core.specs.Found.{IsFound};
ghost use Rattle.search_core.specs.Meters.{AreCounted, AreMore, AreMoreBy, AreSpent};
ghost use Rattle.search_core.specs.Turns.{IfOn, IsTurned};
ghost use Rattle.search_core.specs.Walks.{HasWatches, IsHeld, due_lines, place_of, stage_of};

use crate::found::Found;
use crate::gather::seats;
use crate::meter::{Meter, Spent};
use crate::opening::{Opened, open};
use crate::path::Path;
use crate::walk::Walk;
use branching::Task;
use canonical_order::Lows;
use claim_levels::Trail;
use conflicts::Lemmas;
use dsa_model::Fail;
use lifetime::Sections;
use line_index::Watches;
use skyline::Skyline;
use std::alloc::Global;

/// What comes of one step of the search.
#[derive(Drop)]
enum Turn {
    /// It is at another claim, or has a line for its claim.
    On,
    /// It is done.
    Done(Found),
}

impl<'a> Walk<'a> {
    /// One step: down from the claim that the search is at, or back from it where a line is known
    /// that covers it. After an `Err` nothing is said of the walk.
    fn step(
        &mut self,
        alloc: Global,
        task: &Task,
        log: &mut Lemmas,
        meter: &mut Meter,
    ) -> Result<Turn, Fail<Spent>>
        requires log { IsSearchLog task.now.instance.now task.now.capacity log.old }
        requires place { let I = task.now.instance.now in
            IsPlace I task.now.capacity log.old.lines (place_of self.old) }
        requires watched { HasWatches log.old.lines self.old }
        requires held { IsHeld log.old.lines self.old }
        ensures log { OnOk result (IsSearchLog task.now.instance.now task.now.capacity log.new) }
        ensures grown { let root = sky_root self.old.path.sky in
            OnOk result (Extends root log.old.lines log.new.lines) }
        ensures most { meter.new.most ≡ meter.old.most }
        ensures units { meter.old.used ≤ meter.new.used }
        ensures used { let I = task.now.instance.now in
            let most = owed I task.now.capacity (place_of self.old) in
            meter.new.used ≤ meter.old.used + most }
        ensures taken { self.old.line ≡ None → OnOk result (AreMore meter.old meter.new) }
        ensures turned { let I = task.now.instance.now in
            let before = stage_of self.old meter.old in let after = stage_of self.new meter.new in
            let most = owed I task.now.capacity (place_of self.old) in
            UnlessNoMemory result (IsTurned I task.now.capacity log.new.lines before after)
            (λ _. AreSpent meter.new × (meter.new.used < meter.old.used + most)) }
        ensures watched { IfOk result (IfOn (HasWatches log.new.lines self.new)) }
        ensures held { IfOk result (IfOn (IsHeld log.new.lines self.new)) }
        ensures counted { OnOk result (AreCounted meter.old meter.new
            (due_lines log.old.lines self.old.path) (due_lines log.new.lines self.new.path)) }
    {
        let _count = self.path.instance().len();
        if let Some(k) = self.line {
            return match self.path.go_back() {
                Some(kept) => {
                    self.resume(alloc, task, log, kept, k)?;
                    Ok(Turn::On)
                }
                None => Ok(Turn::Done(Found::Line(k))),
            };
        }
        match open(
            alloc,
            task,
            log,
            meter,
            self.path.sky(),
            &self.trail.levels(),
        )? {
            Opened::Line(k) => {
                self.line = Some(k);
                Ok(Turn::On)
            }
            Opened::Choices => {
                self.begin(alloc, task, log)?;
                Ok(Turn::On)
            }
            Opened::Empty => {
                let seats = seats(alloc, task, &mut self.path)?;
                Ok(Turn::Done(Found::Seats(seats)))
            }
        }
    }
}

/// Searches the whole claim of the members, which rise and are in range: each choice in turn, and
/// then what is left of the claim. The log has no lines yet.
pub(crate) fn search(
    alloc: Global,
    task: &Task,
    log: &mut Lemmas,
    meter: &mut Meter,
    sections: &Sections,
    members: &[u32],
) -> Result<Found, Fail<Spent>>
    requires sections { AreSectionsOf task.now.instance.now sections.now }
    requires rises { Rises members.now }
    requires in_range { All (λ b. b < length task.now.instance.now) members.now }
    requires log { IsSearchLog task.now.instance.now task.now.capacity log.old }
    requires empty { log.old.lines ≡ [] }
    ensures log { OnOk result (IsSearchLog task.now.instance.now task.now.capacity log.new) }
    ensures grown { let I = task.now.instance.now in
        OnOk result (Extends (whole I members.now) [] log.new.lines) }
    ensures most { meter.new.most ≡ meter.old.most }
    ensures units { meter.old.used ≤ meter.new.used }
    ensures used { let I = task.now.instance.now in
        let most = work I task.now.capacity (whole I members.now) in
        meter.new.used ≤ meter.old.used + most }
    ensures taken { OnOk result (AreMore meter.old meter.new) }
    ensures found { let I = task.now.instance.now in
        let most = work I task.now.capacity (whole I members.now) in
        UnlessNoMemory result (IsFound I task.now.capacity (whole I members.now) log.new.lines)
        (λ _. AreSpent meter.new × (meter.new.used < meter.old.used + most)) }
    ensures counted { OnOk result (AreMoreBy (length log.new.lines) meter.old meter.new) }
{
    let sky = Skyline::new(alloc, task.instance, sections, members)?;
    let trail = Trail::of(alloc, &sky)?;
    let watches = Watches::new(alloc, task.capacity);
    let mut walk = Walk {
        path: Path::new(alloc, sky),
        trail,
        line: None,
        watches,
    };
    'turns: loop {
        match walk.step(alloc, task, log, meter)? {
            Turn::On => {}
            Turn::Done(found) => return Ok(found),
        }
    }
}
