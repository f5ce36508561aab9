//! A search that learns a log again, by two ways to look a line up.

ghost use Rattle.std.specs.Prelude.{◌≤◌, IfOk, length};
ghost use Rattle.dsa_model.specs.Buffer.{buffer_limit};
ghost use Rattle.canonical_order.specs.Claims.{HasBuffer};
ghost use Rattle.skyline.specs.Skies.{last_claim};

use crate::draws::Draws;
use canonical_order::Lows;
use conflicts::Lemmas;
use dsa_model::{Fail, Instance, NoMemory};
use line_index::Watches;
use refute_log::{ClosedLog, Log, Reason};
use skyline::Skyline;
use std::alloc::Global;
use std::marker::Model;

/// How often the two look-ups were compared, by what came of it.
#[derive(Clone, Copy)]
pub(crate) struct Tally {
    /// Both found a line.
    pub(crate) found: u32,
    /// Neither did.
    pub(crate) none: u32,
    /// One of them did.
    pub(crate) differ: u32,
}

impl Tally {
    fn note(&mut self, plain: bool, fast: bool) {
        if plain != fast {
            self.differ = self.differ.saturating_add(1);
        } else if plain {
            self.found = self.found.saturating_add(1);
        } else {
            self.none = self.none.saturating_add(1);
        }
    }
}

/// For each buffer one more than its low in the last claim, and 0 where it is not in it.
pub(crate) fn levels_of(alloc: Global, sky: &Skyline) -> Result<Vec<u64>, NoMemory>
    ensures { IfOk result (λ levels. length levels.items ≤ buffer_limit) }
{
    let mut levels = Vec::new(alloc);
    for b in 0..sky.instance().len() {
        let level = if sky.is_free(b) { sky.low(b) + 1 } else { 0 };
        levels.push(level)?;
    }
    Ok(levels)
}

/// The buffers below the count whose levels are higher now than before, each with that before.
fn raised(
    alloc: Global,
    count: u32,
    before: &[u64],
    now: &[u64],
) -> Result<Vec<(u32, u64)>, NoMemory> {
    let mut raised = Vec::new(alloc);
    for b in 0..count {
        let place = b as usize;
        if place < before.len() && place < now.len() && before[place] < now[place] {
            raised.push((b, before[place]))?;
        }
    }
    Ok(raised)
}

/// A search that learns the lines of a log one after another on its way.
#[derive(Drop)]
pub(crate) struct Replay<'a> {
    alloc: Global,
    instance: &'a Instance,
    closed: &'a ClosedLog,
    lemmas: Lemmas,
    watches: Watches,
    draws: Draws,
    pub(crate) tally: Tally,
}

impl<'a> Model for Replay<'a> {
    ghost use Rattle.refute_log.specs.Logs.{Belongs, OpenLog};

    ghost Value = { OpenLog };

    ghost view = { λ r. r.lemmas };

    ghost invariant = { λ r. Belongs r.instance.now r.lemmas };
}

impl<'a> Replay<'a> {
    pub(crate) fn new(
        alloc: Global,
        instance: &'a Instance,
        closed: &'a ClosedLog,
        tally: Tally,
    ) -> Replay<'a> {
        Replay {
            alloc,
            instance,
            closed,
            lemmas: Lemmas::new(alloc, Log::new(alloc, instance, closed.capacity())),
            watches: Watches::new(alloc, closed.capacity()),
            draws: Draws::new(closed.len()),
            tally,
        }
    }

    /// How many lines were learned.
    fn len(&self) -> u64 {
        self.lemmas.log().len()
    }

    /// Learns the next line of the log now and then.
    fn learn(&mut self) -> Result<(), Fail<Reason>> {
        let k = self.lemmas.log().len();
        if self.draws.below(4) == 0 && k < self.closed.len() {
            let line = self.closed.line(k).copy(self.alloc)?;
            self.lemmas.push(self.instance, line)?;
        }
        Ok(())
    }

    /// Whether the plain look-up finds a line that covers the last claim. Notes both answers.
    fn compare(&mut self, sky: &Skyline, fast: Option<u64>) -> bool {
        let plain = self.lemmas.find(sky).is_some();
        self.tally.note(plain, fast.is_some());
        plain
    }

    /// Whether a line covers the last claim, for which so many lines were asked before.
    pub(crate) fn ask(
        &mut self,
        sky: &Skyline,
        levels: &[u64],
        asked: u64,
    ) -> Result<bool, NoMemory> {
        let found = self.watches.ask(self.lemmas.log(), levels, asked)?;
        Ok(self.compare(sky, found))
    }

    /// Goes down to the child by the buffer, and gives its levels where no line covers it.
    fn go_down(
        &mut self,
        sky: &mut Skyline,
        above: &[u64],
        b: u32,
    ) -> Result<Option<Vec<u64>>, NoMemory>
        requires { HasBuffer (last_claim sky.old.claims) b }
    {
        sky.push(b);
        let levels = levels_of(self.alloc, sky)?;
        let raised = raised(self.alloc, self.instance.len(), above, &levels)?;
        let found = self.watches.find(self.lemmas.log(), &levels, &raised)?;
        if self.compare(sky, found) {
            Ok(None)
        } else {
            Ok(Some(levels))
        }
    }

    /// Returns to the claim of the levels, and tells whether a line covers it now.
    fn go_back(
        &mut self,
        sky: &mut Skyline,
        levels: &[u64],
        asked: u64,
    ) -> Result<bool, Fail<Reason>> {
        if sky.depth() > 0 {
            sky.pop();
        }
        self.learn()?;
        Ok(self.ask(sky, levels, asked)?)
    }

    /// Tries the children of the last claim, which has the levels, and the claims below them, until
    /// a line covers it.
    pub(crate) fn search(
        &mut self,
        sky: &mut Skyline,
        levels: &[u64],
        depth: u32,
    ) -> Result<(), Fail<Reason>> {
        for b in 0..self.instance.len() {
            if sky.is_free(b) {
                let asked = self.len();
                if let Some(child) = self.go_down(sky, levels, b)? {
                    if depth > 0 {
                        self.search(sky, &child, depth - 1)?;
                    }
                }
                if self.go_back(sky, levels, asked)? {
                    return Ok(());
                }
            }
        }
        Ok(())
    }
}
