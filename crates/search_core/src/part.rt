//! The search through one part.

ghost use Rattle.std.specs.Prelude.{◌≡◌, ◌+◌, ◌<◌, ◌≤◌, IfOk, OnOk};
ghost use Rattle.dsa_terms.specs.Claims.{IsIn};
ghost use Rattle.dsa_terms.specs.Parts.{parts, whole};
ghost use Rattle.dsa_terms.specs.Search.{work};
ghost use Rattle.dsa_model.specs.Fails.{UnlessNoMemory};
ghost use Rattle.lifetime.specs.SectionList.{AreSectionsOf};
ghost use Rattle.search_core.specs.Meters.{AreMore, AreSpent};
ghost use Rattle.search_core.specs.Pieces.{IsPiece, PieceIsCounted};

use crate::found::Found;
use crate::meter::{Meter, Spent};
use crate::turns::search;
use branching::Task;
use conflicts::Lemmas;
use dsa_model::Fail;
use lifetime::Sections;
use refute_log::{ClosedLog, Log};
use std::alloc::Global;

/// What is found of one part.
#[derive(Drop)]
pub(crate) enum Piece {
    /// The offsets of its buffers, in rising order of buffers.
    Seats(Vec<(u32, u64)>),
    /// A log that refutes the capacity.
    Refuted(ClosedLog),
}

/// Searches the whole claim of a part, with a log of its own.
pub(crate) fn search_part(
    alloc: Global,
    task: &Task,
    meter: &mut Meter,
    sections: &Sections,
    members: &[u32],
) -> Result<Piece, Fail<Spent>>
    requires sections { AreSectionsOf task.now.instance.now sections.now }
    requires part { IsIn members.now (parts task.now.instance.now) }
    ensures most { meter.new.most ≡ meter.old.most }
    ensures units { meter.old.used ≤ meter.new.used }
    ensures used { let I = task.now.instance.now in
        let most = work I task.now.capacity (whole I members.now) in
        meter.new.used ≤ meter.old.used + most }
    ensures taken { OnOk result (AreMore meter.old meter.new) }
    ensures counted { IfOk result (PieceIsCounted meter.old meter.new) }
    ensures found { let I = task.now.instance.now in
        let most = work I task.now.capacity (whole I members.now) in
        UnlessNoMemory result (IsPiece I task.now.capacity members.now)
        (λ _. AreSpent meter.new × (meter.new.used < meter.old.used + most)) }
{
    let _count = task.instance.len();
    let mut log = Lemmas::new(alloc, Log::new(alloc, task.instance, task.capacity));
    match search(alloc, task, &mut log, meter, sections, members)? {
        Found::Seats(seats) => Ok(Piece::Seats(seats)),
        Found::Line(end) => match log.into_log().close(task.instance, end) {
            Ok(closed) => Ok(Piece::Refuted(closed)),
            Err(_) => unreachable!(),
        },
    }
}
