//! What the search does first at a claim.

ghost use Rattle.std.specs.Prelude.{◌≡◌, ◌+◌, ◌≤◌, IfOk, OnOk, length};
ghost use Rattle.canonical_order.specs.Levels.{AreLevels};
ghost use Rattle.dsa_model.specs.Fails.{UnlessNoMemory};
ghost use Rattle.line_index.specs.Covered.{NoneCovers};
ghost use Rattle.branching.specs.Logs.{Extends, IsSearchLog};
ghost use Rattle.search_core.specs.Meters.{AreCounted, AreMore, AreSpent};
ghost use Rattle.search_core.specs.Opened.{IfChoices, IsOpened, left_open};
ghost use Rattle.skyline.specs.Skies.{last_claim};

use crate::meter::{Meter, Spent};
use branching::{Task, append, over_line};
use canonical_order::Lows;
use claim_levels::Levels;
use conflicts::Lemmas;
use dsa_model::{Fail, Instance};
use skyline::Skyline;
use std::alloc::Global;

/// What is found where a claim is opened.
#[derive(Drop)]
pub(crate) enum Opened {
    /// The number of a line that covers it: it has no layout.
    Line(u64),
    /// That it has some buffers, and it has to be seen whether one of its choices has a layout.
    Choices,
    /// That it has no buffers, and so the empty layout.
    Empty,
}

/// Opens the last claim, which no line covers and which has these levels. They say its lows, so
/// that no low is found by a walk over sections.
pub(crate) fn open(
    alloc: Global,
    task: &Task,
    log: &mut Lemmas,
    meter: &mut Meter,
    sky: &Skyline,
    levels: &Levels,
) -> Result<Opened, Fail<Spent>>
    requires subject { sky.now.instance ≡ task.now.instance.now }
    requires levels { AreLevels task.now.instance.now (last_claim sky.now.claims) levels.now }
    requires log { IsSearchLog task.now.instance.now task.now.capacity log.old }
    requires fresh { let l = last_claim sky.now.claims in
        NoneCovers task.now.instance.now log.old.lines l }
    ensures log { OnOk result (IsSearchLog task.now.instance.now task.now.capacity log.new) }
    ensures grown { let l = last_claim sky.now.claims in
        OnOk result (Extends l log.old.lines log.new.lines) }
    ensures most { meter.new.most ≡ meter.old.most }
    ensures units { meter.old.used ≤ meter.new.used }
    ensures one { meter.new.used ≤ meter.old.used + 1 }
    ensures taken { OnOk result (AreMore meter.old meter.new) }
    ensures opened { let I = task.now.instance.now in let l = last_claim sky.now.claims in
        UnlessNoMemory result (IsOpened I task.now.capacity log.new.lines l)
        (λ _. AreSpent meter.new × (meter.new.used ≡ meter.old.used)) }
    ensures same { IfOk result (IfChoices (log.new ≡ log.old)) }
    ensures counted { IfOk result (λ o. AreCounted meter.old meter.new
        (length log.old.lines) (length log.new.lines + left_open o)) }
{
    let _count = sky.instance().len();
    let taken = meter.take();
    if !taken {
        return Err(Fail::Fault(Spent));
    }
    if levels.is_empty() {
        return Ok(Opened::Empty);
    }
    match over_line(alloc, task, sky, levels)? {
        Some(line) => Ok(Opened::Line(append(alloc, task, log, line)?)),
        None => Ok(Opened::Choices),
    }
}
