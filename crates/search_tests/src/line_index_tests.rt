//! The fast look-up of a line beside the plain one, in searches of made instances.

ghost use Rattle.std.specs.Prelude.{◌<◌, length};
ghost use Rattle.std.specs.List.{All};
ghost use Rattle.dsa_terms.specs.Claims.{Rises};
ghost use Rattle.lifetime.specs.SectionList.{AreSectionsOf};

use crate::draws::made;
use crate::replays::{Replay, Tally, levels_of};
use crate::searches::searched;
use dsa_model::{Fail, Instance};
use lifetime::Sections;
use refute_log::{ClosedLog, Decided, Reason};
use search_core::Budget;
use skyline::Skyline;
use split_sections::parts;
use std::alloc::Global;

/// How many buffers stand at most where a line is looked up for each child.
const DEPTH: u32 = 4;

/// Seeds, each with a capacity that the search refutes by thirty lines or more.
static REFUTED: [(u64, u32); 20] = [
    (0, 185),
    (2, 100),
    (9, 259),
    (11, 170),
    (12, 220),
    (16, 149),
    (18, 212),
    (24, 314),
    (30, 116),
    (31, 207),
    (37, 148),
    (38, 224),
    (43, 216),
    (45, 220),
    (46, 196),
    (51, 203),
    (53, 144),
    (57, 188),
    (60, 180),
    (66, 150),
];

/// Searches from the last claim on, where no line covers it.
fn replay_from(alloc: Global, sky: &mut Skyline, replay: &mut Replay) -> Result<(), Fail<Reason>> {
    let levels = levels_of(alloc, sky)?;
    if !replay.ask(sky, &levels, 0)? {
        replay.search(sky, &levels, DEPTH)?;
    }
    Ok(())
}

/// Searches the part of these members.
fn replay_part(
    alloc: Global,
    instance: &Instance,
    sections: &Sections,
    members: &[u32],
    replay: &mut Replay,
) -> Result<(), Fail<Reason>>
    requires sections { AreSectionsOf instance.now sections.now }
    requires rises { Rises members.now }
    requires in_range { All (λ b. b < length instance.now) members.now }
{
    let mut sky = Skyline::new(alloc, instance, sections, members)?;
    replay_from(alloc, &mut sky, replay)
}

/// Searches each part.
fn replay_parts(
    alloc: Global,
    instance: &Instance,
    sections: &Sections,
    replay: &mut Replay,
) -> Result<(), Fail<Reason>>
    requires sections { AreSectionsOf instance.now sections.now }
{
    let parts = parts(alloc, instance)?;
    for p in 0..parts.count() {
        replay_part(alloc, instance, sections, parts.members(p), replay)?;
    }
    Ok(())
}

/// The tally after a search of each part that learns the lines of the log.
fn replayed(
    alloc: Global,
    instance: &Instance,
    sections: &Sections,
    closed: &ClosedLog,
    tally: Tally,
) -> Result<Tally, Fail<Reason>>
    requires sections { AreSectionsOf instance.now sections.now }
{
    let mut replay = Replay::new(alloc, instance, closed, tally);
    replay_parts(alloc, instance, sections, &mut replay)?;
    Ok(replay.tally)
}

/// The same by the instance's sections, and none where memory runs out or a line is not legal.
fn tally_with(
    alloc: Global,
    instance: &Instance,
    closed: &ClosedLog,
    tally: Tally,
) -> Option<Tally> {
    match Sections::build(alloc, instance) {
        Ok(sections) => replayed(alloc, instance, &sections, closed, tally).ok(),
        Err(_) => None,
    }
}

/// The tally after the log by which the search refutes the capacity, and none where there is no
/// log.
fn tally_after(alloc: Global, instance: &Instance, capacity: u32, tally: Tally) -> Option<Tally> {
    match searched(alloc, instance, capacity, Budget::unlimited()) {
        Ok(Decided::Refuted(log)) => tally_with(alloc, instance, &log, tally),
        _ => None,
    }
}

/// The same of the seed's instance.
fn tally_of(alloc: Global, seed: u64, capacity: u32, tally: Tally) -> Option<Tally> {
    match made(alloc, seed) {
        Ok(instance) => tally_after(alloc, &instance, capacity, tally),
        Err(_) => None,
    }
}

/// No comparison.
static NOTHING: Tally = Tally {
    found: 0,
    none: 0,
    differ: 0,
};

/// The tally after all of the logs, and none where one is not there or a comparison differs.
fn tally_of_all(alloc: Global) -> Option<Tally> {
    let mut tally = NOTHING;
    for &(seed, capacity) in &REFUTED {
        tally = tally_of(alloc, seed, capacity, tally)?;
        if tally.differ > 0 {
            return None;
        }
    }
    Some(tally)
}

#[test]
fn watches_show_a_line_wherever_the_plain_look_up_does(rt: HostRuntime) {
    let tally = tally_of_all(rt.alloc()).expect(&rt, "logs of legal lines, and no difference");
    assert!(rt; tally.found >= 1_000 && tally.none >= 1_000);
}
