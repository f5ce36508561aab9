//! The cites of a claim each of whose choices is refuted.

ghost use Rattle.std.specs.Prelude.{◌≡◌, ◌<◌, length, map, true, slice_index, IfOk};
ghost use Rattle.std.specs.List.{AllZip};
ghost use Rattle.dsa_terms.specs.Claims.{Claim as ClaimTerm, Entry, IsIn};
ghost use Rattle.dsa_terms.specs.Search.{not_excluded};
ghost use Rattle.canonical_order.specs.Claims.{entry_of};
ghost use Rattle.canonical_order.specs.Levels.{AreLevels};
ghost use Rattle.refute_log.specs.Lines.{cite_value};
ghost use Rattle.branching.specs.Cites.{IsCiteFor};
ghost use Rattle.branching.specs.Endings.{IsLeastEnding};
ghost use Rattle.branching.specs.declared.notes.Refuted.{Refuted as RefutedTerm};

use crate::choice::own_cite;
use crate::ending::{Ending, least_end};
use crate::notes::Refuted;
use crate::task::Task;
use canonical_order::Claim;
use claim_levels::Levels;
use dsa_model::NoMemory;
use refute_log::{Cite, Cites};
use std::alloc::Global;

/// The line that is noted for the buffer, where one is.
fn line_of(refuted: &[Refuted], b: u32) -> u64
    ensures { IsIn b (map (λ (r : RefutedTerm). r.buffer) refuted.now) →
        (r : RefutedTerm) × IsIn r refuted.now × (r.buffer ≡ b) × (r.line ≡ result) }
{
    for r in refuted {
        if r.buffer == b {
            return r.line;
        }
    }
    0
}

/// The cite of a buffer of the claim of the levels. A line is noted where no rule excludes it.
fn cite_for(task: &Task, levels: &Levels, least: Ending, b: u32, refuted: &[Refuted]) -> Cite
    requires count { length levels.now ≡ length task.now.instance.now }
    requires b_in { 0 < slice_index levels.now b }
    ensures { let I = task.now.instance.now in (l : ClaimTerm) → AreLevels I l levels.now →
        IsLeastEnding I l (length I) least →
        (not_excluded I l (entry_of l b) ≡ true →
        IsIn b (map (λ (r : RefutedTerm). r.buffer) refuted.now)) →
        IsCiteFor I l refuted.now (entry_of l b) (cite_value result) }
{
    match own_cite(task, levels, least, b) {
        Some(cite) => cite,
        None => Cite::Line(line_of(refuted, b)),
    }
}

/// The cites of the claim: below or twin wherever one is legal, and else the line that is noted.
pub(crate) fn cites(
    alloc: Global,
    task: &Task,
    claim: &Claim,
    levels: &Levels,
    refuted: &[Refuted],
) -> Result<Cites, NoMemory>
    requires levels { AreLevels task.now.instance.now claim.now levels.now }
    requires noted { let I = task.now.instance.now in let l = claim.now in
        (e : Entry) → IsIn e l → not_excluded I l e ≡ true →
        IsIn e.0 (map (λ (r : RefutedTerm). r.buffer) refuted.now) }
    ensures { let I = task.now.instance.now in let l = claim.now in
        IfOk result (λ cites. AllZip (IsCiteFor I l refuted.now) l (map cite_value cites)) }
{
    let least = least_end(task.instance, levels);
    let pairs = claim.pairs();
    let mut cites = Vec::with_capacity(alloc, pairs.len())?;
    for i in 0..pairs.len() {
        cites.push(cite_for(task, levels, least, pairs[i].0, refuted))?;
    }
    Ok(Cites::from_vec(cites))
}
