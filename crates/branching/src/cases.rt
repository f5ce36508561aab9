//! The end of a claim each of whose choices is refuted.

ghost use Rattle.std.specs.Prelude.{◌≡◌, ◌≢◌, ◌+◌, [], length, map, true, IfOk, OnOk};
ghost use Rattle.dsa_terms.specs.Claims.{Entry, IsIn};
ghost use Rattle.dsa_terms.specs.Search.{not_excluded};
ghost use Rattle.dsa_model.specs.Limits.{number_limit};
ghost use Rattle.canonical_order.specs.Claims.{IsBoundedBy};
ghost use Rattle.canonical_order.specs.Levels.{AreLevels};
ghost use Rattle.canonical_order.specs.Stands.{Stands};
ghost use Rattle.line_index.specs.Covered.{IsCoveredBy, NoneCovers};
ghost use Rattle.branching.specs.Cites.{IsChildCovered};
ghost use Rattle.branching.specs.Logs.{Extends, IsSearchLog};
ghost use Rattle.branching.specs.declared.notes.Refuted.{Refuted as RefutedTerm};

use crate::cites::cites;
use crate::lines::append;
use crate::notes::Refuted;
use crate::task::Task;
use canonical_order::Claim;
use claim_levels::Levels;
use conflicts::Lemmas;
use dsa_model::NoMemory;
use refute_log::Line;
use std::alloc::Global;

/// Appends the Cases line of the claim, which no line covers, and gives its number. Each of its
/// choices is noted with a line.
pub fn refute(
    alloc: Global,
    task: &Task,
    log: &mut Lemmas,
    claim: Claim,
    levels: &Levels,
    refuted: &[Refuted],
) -> Result<u64, NoMemory>
    requires levels { AreLevels task.now.instance.now claim levels.now }
    requires stands { Stands task.now.instance.now claim }
    requires low { IsBoundedBy number_limit claim }
    requires not_empty { claim ≢ [] }
    requires noted { (e : Entry) → IsIn e claim →
        not_excluded task.now.instance.now claim e ≡ true →
        IsIn e.0 (map (λ (r : RefutedTerm). r.buffer) refuted.now) }
    requires covered { (r : RefutedTerm) → IsIn r refuted.now →
        IsChildCovered task.now.instance.now log.old.lines claim r }
    requires log { IsSearchLog task.now.instance.now task.now.capacity log.old }
    requires fresh { NoneCovers task.now.instance.now log.old.lines claim }
    ensures log { OnOk result (IsSearchLog task.now.instance.now task.now.capacity log.new) }
    ensures grown { OnOk result (Extends claim log.old.lines log.new.lines) }
    ensures covered { IfOk result (IsCoveredBy task.now.instance.now log.new.lines claim) }
    ensures counted { OnOk result (length log.new.lines ≡ length log.old.lines + 1) }
{
    let cites = cites(alloc, task, &claim, levels, refuted)?;
    append(alloc, task, log, Line::Cases { claim, cites })
}
