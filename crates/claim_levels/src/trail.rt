//! The levels of the claims down to one, kept as those of the last one and what changed on the way.

ghost use Rattle.std.specs.Prelude.{◌≡◌, ◌∷◌, ℕ, [], List, IfNone, IfOk, IfSome, OnErr, OnOk, length, true};
ghost use Rattle.dsa_terms.specs.Claims.{Claim as ClaimTerm, child as child_of};
ghost use Rattle.lifetime.specs.SectionList.{AreSectionsOf};
ghost use Rattle.canonical_order.specs.Claims.{entry_of};
ghost use Rattle.canonical_order.specs.Levels.{AreLevels};
ghost use Rattle.line_index.specs.Covered.{IsCoveredBy, NoneCovers};
ghost use Rattle.line_index.specs.Watches.{AreNoted, AreRaised, AreWatched};
ghost use Rattle.claim_levels.specs.Levels.{HasLowChild, IsLeastLevel};
ghost use Rattle.skyline.specs.Skies.{last_claim};

use crate::below::raise_child;
use crate::left::{left_of, put_in, take_out};
use crate::levels::Levels;
use crate::present::Present;
use crate::raising::{Raising, put_back};
use crate::root::{fill, greatest_level};
use canonical_order::Lows;
use dsa_model::{Instance, NoMemory};
use lifetime::Sections;
use line_index::{Recent, Watches};
use refute_log::Log;
use skyline::Skyline;
use std::alloc::Global;
use std::marker::Model;
use std::mem;

/// How a claim was left for a child: by which buffer, a guess where it stood among the buffers that
/// had a level, the number that no level of the claim is above, and the buffers whose levels
/// changed, each with its level in the claim.
#[derive(Drop)]
pub(crate) struct Step {
    pub(crate) buffer: u32,
    pub(crate) place: usize,
    pub(crate) top: u64,
    pub(crate) changes: Vec<(u32, u64)>,
}

/// The levels of a claim and of those above it, from which it is left by one buffer after another.
/// Only those of the last claim are written down: the way down to a child changes them in place and
/// notes what it changed, and the way back up undoes that. Lists of changes that are no longer
/// needed are kept as spares, so that going up and down takes no memory anew. All changes together
/// take up to 16 bytes for each pair of buffers, so 134 MB for 4,096, and as much again for room.
/// Beside them stand the lines that covered last where a buffer was chosen, which are tried first,
/// and which buffers the claim has, as bits, which show that some need not be tried. Contracts see
/// all levels.
#[derive(Drop)]
pub struct Trail {
    raising: Raising,
    left: Vec<u32>,
    present: Present,
    recent: Recent,
    steps: Vec<Step>,
    spares: Vec<Vec<(u32, u64)>>,
}

impl Model for Trail {
    ghost use Rattle.claim_levels.specs.Trails.{IsTrail, Tracks, tracks_by};

    ghost Value = { Tracks };

    ghost view = { λ t. tracks_by t.raising.numbers.items t.steps.items };

    ghost invariant = { λ t.
        IsTrail t.raising.numbers.items t.left.items t.raising.top t.steps.items };
}

impl Trail {
    /// The levels of the last claim alone.
    pub fn of(alloc: Global, sky: &Skyline) -> Result<Trail, NoMemory>
        ensures last { IfOk result (λ trail.
            AreLevels sky.now.instance (last_claim sky.now.claims) trail.last) }
        ensures above { IfOk result (λ trail. trail.above ≡ []) }
    {
        let mut numbers = vec![in alloc; 0u64; sky.instance().len() as usize]?;
        fill(&mut numbers, sky);
        let left = left_of(alloc, &numbers)?;
        let present = Present::of(&left);
        let recent = Recent::new(alloc, sky.instance().len())?;
        let top = greatest_level(&numbers);
        Ok(Trail {
            raising: Raising {
                numbers,
                top,
                changes: Vec::new(alloc),
            },
            left,
            present,
            recent,
            steps: Vec::new(alloc),
            spares: Vec::new(alloc),
        })
    }

    /// The levels of the last claim.
    pub fn levels(&self) -> Levels<'_>
        ensures { result ≡ self.now.last }
    {
        Levels::of(&self.raising.numbers, &self.left, self.raising.top)
    }

    /// Goes down to the child by the buffer, which is in the last claim, unless a line is found
    /// that covers the child: then the line is given, and all levels are as before. Where each mark
    /// has a note of its line, and all lines are watched at the last claim, no line covers a child
    /// that is gone down to, and all are watched there. What is watched at the last claim and at
    /// claims above stays so, and marks that each have a note of their line keep one. No bound of
    /// the child may be above 2^54, and where `is_first` is yes, the buffer is the one of least
    /// low, and of these the one of least number: then only the members of its sections are gone
    /// over, where these are fewer than the buffers that are left. After an `Err` all levels are as
    /// before, and nothing is said of what is watched.
    pub fn descend(
        &mut self,
        alloc: Global,
        instance: &Instance,
        sections: &Sections,
        log: &Log,
        watches: &mut Watches,
        b: u32,
        is_first: bool,
    ) -> Result<Option<u64>, NoMemory>
        requires low { HasLowChild instance.now self.old.last b }
        requires sections { AreSectionsOf instance.now sections.now }
        requires first { is_first ≡ true → IsLeastLevel self.old.last b }
        ensures last { let I = instance.now in (l : ClaimTerm) → AreLevels I l self.old.last →
            IfOk result (λ line. IfNone line
            (AreLevels I (child_of I l (entry_of l b)) self.new.last)) }
        ensures above { IfOk result (λ line. IfNone line
            (self.new.above ≡ self.old.last ∷ self.old.above)) }
        ensures covered { let I = instance.now in (l : ClaimTerm) → AreLevels I l self.old.last →
            IfOk result (λ line. IfSome line
            (IsCoveredBy I log.now.lines (child_of I l (entry_of l b)))) }
        ensures stays { IfOk result (λ line. IfSome line (λ _. self.new ≡ self.old)) }
        ensures uncovered { let I = instance.now in (l : ClaimTerm) → AreLevels I l self.old.last →
            AreNoted log.now.lines watches.old.rows →
            AreWatched log.now.lines watches.old self.old.last (length log.now.lines) →
            IfOk result (λ line. IfNone line
            (NoneCovers I log.now.lines (child_of I l (entry_of l b)))) }
        ensures watched { AreNoted log.now.lines watches.old.rows →
            AreWatched log.now.lines watches.old self.old.last (length log.now.lines) →
            IfOk result (λ line. IfNone line
            (AreWatched log.now.lines watches.new self.new.last (length log.now.lines))) }
        ensures kept { (before : List ℕ) (n : ℕ) → AreRaised before self.old.last →
            AreWatched log.now.lines watches.old before n →
            IfOk result (λ _. AreWatched log.now.lines watches.new before n) }
        ensures noted { AreNoted log.now.lines watches.old.rows →
            OnOk result (AreNoted log.now.lines watches.new.rows) }
        ensures unchanged { OnErr result (self.new ≡ self.old) }
    {
        let missing = self.present.missing_without(b);
        let seen = self
            .recent
            .find(log, instance, &self.raising.numbers, b, missing);
        if seen.is_some() {
            return Ok(seen);
        }
        self.steps.reserve(1)?;
        let top = self.raising.top;
        let found = raise_child(
            &mut self.raising,
            instance,
            sections,
            &self.left,
            b,
            is_first,
            log,
            watches,
        )?;
        if let Some(line) = found {
            self.recent.note(log, b, line);
            return Ok(found);
        }
        let place = take_out(&mut self.left, b);
        self.present.take_out(b);
        let spare = match self.spares.pop() {
            Some(spare) => spare,
            None => Vec::new(alloc),
        };
        let changes = mem::replace(&mut self.raising.changes, spare);
        self.steps.push_reserved(Step {
            buffer: b,
            place,
            top,
            changes,
        });
        Ok(None)
    }

    /// Goes back to the claim above the last one, if there is one. The line covers the last one: it
    /// is tried first where the same buffer is chosen again, and nothing else hangs on it. After an
    /// `Err` all levels are as before.
    pub fn ascend(&mut self, log: &Log, line: u64) -> Result<(), NoMemory>
        ensures some { (before : List ℕ) (others : List (List ℕ)) →
            self.old.above ≡ before ∷ others →
            OnOk result (self.new ≡ record { last = before; above = others }) }
        ensures none { self.old.above ≡ [] → OnOk result (self.new ≡ self.old) }
        ensures unchanged { OnErr result (self.new ≡ self.old) }
    {
        // What may fail comes first.
        self.spares.reserve(1)?;
        match self.steps.last() {
            Some(step) => put_in(&mut self.left, step.buffer, step.place)?,
            None => return Ok(()),
        }
        if let Some(step) = self.steps.pop() {
            put_back(&mut self.raising.numbers, &step.changes);
            self.raising.top = step.top;
            self.present.put_in(step.buffer);
            self.recent.note(log, step.buffer, line);
            let spare = mem::replace(&mut self.raising.changes, step.changes);
            self.spares.push_reserved(spare);
        }
        Ok(())
    }
}
