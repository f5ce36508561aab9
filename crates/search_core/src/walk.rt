//! A search on its way: where it is, and what it keeps at hand.

ghost use Rattle.std.specs.Prelude.{◌≡◌, ℕ, List, IfOk, OnOk, length, true};
ghost use Rattle.canonical_order.specs.Claims.{HasBuffer};
ghost use Rattle.line_index.specs.Covered.{IsCoveredBy};
ghost use Rattle.claim_levels.specs.Levels.{IsLeastLevel};
ghost use Rattle.branching.specs.Logs.{IsSearchLog};
ghost use Rattle.branching.specs.Tries.{noted_by, order_of, tried_of, untried};
ghost use Rattle.search_core.specs.Descents.{IsPath, claim_at};
ghost use Rattle.search_core.specs.Turns.{IsAtChoices, IsUncovered};
ghost use Rattle.search_core.specs.Walks.{GoesOn, HasWatches, IsLookedUp, child_by, place_of, tracks_below};
ghost use Rattle.search_core.specs.Watches.{AreWatchedAbove, AreWatchedTo};
ghost use Rattle.search_core.specs.Ways.{IsKeptAt};

use crate::kept::Kept;
use crate::path::Path;
use branching::{Frame, Notes, Task, choices, refute};
use canonical_order::Lows;
use claim_levels::Trail;
use conflicts::Lemmas;
use dsa_model::NoMemory;
use line_index::Watches;
use std::alloc::Global;

/// Where a search is, the levels of the claims down to that one, the number of a line that covers
/// the claim there, if one is known, and the watches of all lines.
#[derive(Drop)]
pub(crate) struct Walk<'a> {
    pub(crate) path: Path<'a>,
    pub(crate) trail: Trail,
    pub(crate) line: Option<u64>,
    pub(crate) watches: Watches,
}

impl<'a> Walk<'a> {
    /// A line that covers the child by the buffer of the claim that the search is at. If none is
    /// found, the levels are those of the child by then. Where `is_first` is yes, the buffer is the
    /// one of least low, and of these the one of least number.
    fn look_up(
        &mut self,
        alloc: Global,
        task: &Task,
        log: &Lemmas,
        b: u32,
        is_first: bool,
    ) -> Result<Option<u64>, NoMemory>
        requires path { let I = task.now.instance.now in
            IsPath I task.now.capacity log.now.lines (place_of self.old) }
        requires has { HasBuffer (claim_at (place_of self.old)) b }
        requires first { is_first ≡ true → IsLeastLevel self.old.trail.last b }
        requires watched { HasWatches log.now.lines self.old }
        requires held { let n = length log.now.lines in
            AreWatchedTo log.now.lines self.old.watches self.old.path n }
        ensures path { self.new.path ≡ self.old.path }
        ensures line { self.new.line ≡ self.old.line }
        ensures found { let I = task.now.instance.now in
            IfOk result (IsLookedUp I log.now.lines b self.old self.new) }
    {
        let _count = self.path.instance().len();
        self.trail.descend(
            alloc,
            task.instance,
            self.path.sky().sections(),
            log.log(),
            &mut self.watches,
            b,
            is_first,
        )
    }

    /// Refutes the claim that the search is at by a line: no line covers it, and each of its
    /// choices is refuted.
    fn refute(
        &mut self,
        alloc: Global,
        task: &Task,
        log: &mut Lemmas,
        frame: &Frame,
    ) -> Result<(), NoMemory>
        requires log { IsSearchLog task.now.instance.now task.now.capacity log.old }
        requires ready { let I = task.now.instance.now in
            IsUncovered I task.now.capacity log.old.lines (place_of self.old) frame.now }
        requires done { length frame.now.refuted ≡ length frame.now.order }
        requires watched { HasWatches log.old.lines self.old }
        ensures { let I = task.now.instance.now in let C = task.now.capacity in
            OnOk result (GoesOn I C frame.now log.old log.new self.old self.new) }
    {
        let _count = self.path.instance().len();
        let levels = self.trail.levels();
        let claim = levels.ground(alloc)?;
        let line = refute(alloc, task, log, claim, &levels, frame.refuted())?;
        self.line = Some(line);
        Ok(())
    }

    /// Goes down to the first child of the claim that the search is at that no line covers; where
    /// each is covered, the claim is refuted by a line. No line covers the claim, and its choices
    /// are those of the frame, the first of which is refuted already.
    fn proceed(
        &mut self,
        alloc: Global,
        task: &Task,
        log: &mut Lemmas,
        mut frame: Frame,
    ) -> Result<(), NoMemory>
        requires log { IsSearchLog task.now.instance.now task.now.capacity log.old }
        requires ready { let I = task.now.instance.now in
            IsUncovered I task.now.capacity log.old.lines (place_of self.old) frame }
        requires watched { HasWatches log.old.lines self.old }
        requires held { AreWatchedTo log.old.lines self.old.watches self.old.path frame.asked }
        ensures { let I = task.now.instance.now in let C = task.now.capacity in
            OnOk result (GoesOn I C frame log.old log.new self.old self.new) }
    {
        let _count = self.path.instance().len();
        'choices: while !frame.is_done() {
            let chosen = frame.chosen();
            match self.look_up(alloc, task, log, chosen, false)? {
                Some(line) => frame.note(line)?,
                None => {
                    let (order, notes) = frame.parts();
                    self.path.go_down(Kept {
                        notes,
                        chosen,
                        order: Some(order),
                    })?;
                    self.line = None;
                    return Ok(());
                }
            }
        }
        self.refute(alloc, task, log, &frame)
    }

    /// Goes down to the child by the first choice of the claim that the search is at, which was
    /// just opened, or where a line covers that, goes on as `proceed` does. The other choices are
    /// not looked for before they are needed.
    pub(crate) fn begin(
        &mut self,
        alloc: Global,
        task: &Task,
        log: &mut Lemmas,
    ) -> Result<(), NoMemory>
        requires log { IsSearchLog task.now.instance.now task.now.capacity log.old }
        requires ready { let I = task.now.instance.now in
            let f = untried (order_of I (claim_at (place_of self.old))) (length log.old.lines) in
            IsUncovered I task.now.capacity log.old.lines (place_of self.old) f }
        requires watched { HasWatches log.old.lines self.old }
        requires held { let n = length log.old.lines in
            AreWatchedTo log.old.lines self.old.watches self.old.path n }
        ensures { let I = task.now.instance.now in let C = task.now.capacity in
            let f = untried (order_of I (claim_at (place_of self.old))) (length log.old.lines) in
            OnOk result (GoesOn I C f log.old log.new self.old self.new) }
    {
        let _count = self.path.instance().len();
        let asked = log.log().len();
        let chosen = self.trail.levels().first();
        match self.look_up(alloc, task, log, chosen, true)? {
            Some(line) => {
                let order = choices(alloc, task, &self.trail.levels())?;
                let mut frame = Frame::new(alloc, order, asked);
                frame.note(line)?;
                self.proceed(alloc, task, log, frame)
            }
            None => {
                let refuted = Vec::new(alloc);
                self.path.go_down(Kept {
                    notes: Notes { refuted, asked },
                    chosen,
                    order: None,
                })?;
                self.line = None;
                Ok(())
            }
        }
    }

    /// Goes on at the claim to which the search has come back from the child by the choice that was
    /// kept, which line k covers: by a line that covers the claim itself, which was made since it
    /// was asked for one, or else by its next choice. The levels are still those of the child.
    pub(crate) fn resume(
        &mut self,
        alloc: Global,
        task: &Task,
        log: &mut Lemmas,
        kept: Kept,
        k: u64,
    ) -> Result<(), NoMemory>
        requires log { IsSearchLog task.now.instance.now task.now.capacity log.old }
        requires opened { let I = task.now.instance.now in
            let f = tried_of I (claim_at (place_of self.old)) kept.notes in
            IsAtChoices I task.now.capacity log.old.lines (place_of self.old) f }
        requires kept { let l = claim_at (place_of self.old) in
            IsKeptAt task.now.instance.now l kept }
        requires covered { let I = task.now.instance.now in
            IsCoveredBy I log.old.lines (child_by I self.old kept.chosen) k }
        requires trail { (below : List ℕ) × (self.old.trail ≡ tracks_below self.old.path below) }
        requires above { AreWatchedAbove log.old.lines self.old.watches self.old.path }
        requires held { let n = kept.notes.asked in
            AreWatchedTo log.old.lines self.old.watches self.old.path n }
        ensures { let I = task.now.instance.now in let C = task.now.capacity in
            let f = noted_by (tried_of I (claim_at (place_of self.old)) kept.notes) k in
            OnOk result (GoesOn I C f log.old log.new self.old self.new) }
    {
        let _count = self.path.instance().len();
        self.trail.ascend(log.log(), k)?;
        let levels = self.trail.levels();
        let asked = kept.notes.asked;
        if let Some(line) = self.watches.ask(log.log(), levels.as_slice(), asked)? {
            self.line = Some(line);
            return Ok(());
        }
        let mut frame = kept.frame(alloc, task, &levels)?;
        frame.note(k)?;
        frame.ask_to(log.log().len());
        self.proceed(alloc, task, log, frame)
    }
}
