//! The levels of a child, and a line that covers it.

ghost use Rattle.std.specs.Prelude.{◌≡◌, ◌≤◌, ◌^◌, ℕ, List, IfNone, IfOk, IfSome, OnErr, OnOk, length, true};
ghost use Rattle.std.specs.List.{All};
ghost use Rattle.dsa_terms.specs.Claims.{Claim as ClaimTerm, child as child_of};
ghost use Rattle.dsa_model.specs.Buffer.{buffer_limit};
ghost use Rattle.lifetime.specs.SectionList.{AreSectionsOf};
ghost use Rattle.canonical_order.specs.Claims.{entry_of};
ghost use Rattle.canonical_order.specs.Levels.{AreLevels};
ghost use Rattle.line_index.specs.Covered.{IsCoveredBy, NoneCovers};
ghost use Rattle.line_index.specs.Watches.{AreNoted, AreRaised, AreWatched};
ghost use Rattle.claim_levels.specs.Levels.{AreLeft, HasLowChild, IsLeastLevel};
ghost use Rattle.claim_levels.specs.Placings.{IsPlaced};
ghost use Rattle.claim_levels.specs.Raisings.{IsRaised, IsRaising};

use crate::placed::Placed;
use crate::raising::{Raising, put_back};
use crate::spreading::raise_all;
use dsa_model::{Instance, NoMemory};
use lifetime::Sections;
use line_index::Watches;
use refute_log::Log;

/// Writes each level of the child, and looks for a line that covers it.
fn look_below(
    raising: &mut Raising,
    instance: &Instance,
    placed: Placed,
    sections: &Sections,
    left: &[u32],
    is_first: bool,
    log: &Log,
    watches: &mut Watches,
) -> Result<Option<u64>, NoMemory>
    ghost levels: { List ℕ }
    requires placed { IsPlaced instance.now levels placed }
    requires low { HasLowChild instance.now levels placed.buffer }
    requires few { length levels ≤ buffer_limit }
    requires raising { IsRaising instance.now levels placed.buffer raising.old }
    requires sections { AreSectionsOf instance.now sections.now }
    requires left { AreLeft levels left.now }
    requires first { is_first ≡ true → IsLeastLevel levels placed.buffer }
    ensures raising { IsRaising instance.now levels placed.buffer raising.new }
    ensures done { OnOk result ((c : ℕ) →
        IsRaised instance.now levels placed.buffer raising.new.numbers.items c) }
    ensures covered { let I = instance.now in (l : ClaimTerm) → AreLevels I l levels →
        IfOk result (λ line. IfSome line
        (IsCoveredBy I log.now.lines (child_of I l (entry_of l placed.buffer)))) }
    ensures uncovered { let I = instance.now in (l : ClaimTerm) → AreLevels I l levels →
        AreNoted log.now.lines watches.old.rows →
        AreWatched log.now.lines watches.old levels (length log.now.lines) →
        IfOk result (λ line. IfNone line
        (NoneCovers I log.now.lines (child_of I l (entry_of l placed.buffer)))) }
    ensures watched { AreNoted log.now.lines watches.old.rows →
        AreWatched log.now.lines watches.old levels (length log.now.lines) →
        IfOk result (λ line. IfNone line
        (AreWatched log.now.lines watches.new raising.new.numbers.items (length log.now.lines))) }
    ensures kept { (before : List ℕ) (n : ℕ) → AreRaised before levels →
        AreWatched log.now.lines watches.old before n →
        IfOk result (λ _. AreWatched log.now.lines watches.new before n) }
    ensures noted { AreNoted log.now.lines watches.old.rows →
        OnOk result (AreNoted log.now.lines watches.new.rows) }
{
    let _count = instance.len();
    raise_all(raising, instance, placed, sections, left, is_first)?;
    watches.find(log, &raising.numbers, &raising.changes)
}

/// Makes the levels of a claim those of its child by b, and notes what changes, unless a line is
/// found that covers the child. Where one is, and after an `Err`, they are those of the claim.
pub(crate) fn raise_child(
    raising: &mut Raising,
    instance: &Instance,
    sections: &Sections,
    left: &[u32],
    b: u32,
    is_first: bool,
    log: &Log,
    watches: &mut Watches,
) -> Result<Option<u64>, NoMemory>
    requires low { HasLowChild instance.now raising.old.numbers.items b }
    requires few { length raising.old.numbers.items ≤ buffer_limit }
    requires under { All (λ level. level ≤ raising.old.top) raising.old.numbers.items }
    requires limit { raising.old.top ≤ 2 ^ 55 }
    requires sections { AreSectionsOf instance.now sections.now }
    requires left { AreLeft raising.old.numbers.items left.now }
    requires first { is_first ≡ true → IsLeastLevel raising.old.numbers.items b }
    ensures raising { IfOk result (λ line. IfNone line
        (IsRaising instance.now raising.old.numbers.items b raising.new)) }
    ensures done { IfOk result (λ line. IfNone line ((c : ℕ) →
        IsRaised instance.now raising.old.numbers.items b raising.new.numbers.items c)) }
    ensures covered { let I = instance.now in (l : ClaimTerm) →
        AreLevels I l raising.old.numbers.items →
        IfOk result (λ line. IfSome line
        (IsCoveredBy I log.now.lines (child_of I l (entry_of l b)))) }
    ensures uncovered { let I = instance.now in (l : ClaimTerm) →
        AreLevels I l raising.old.numbers.items →
        AreNoted log.now.lines watches.old.rows →
        AreWatched log.now.lines watches.old raising.old.numbers.items (length log.now.lines) →
        IfOk result (λ line. IfNone line
        (NoneCovers I log.now.lines (child_of I l (entry_of l b)))) }
    ensures watched { AreNoted log.now.lines watches.old.rows →
        AreWatched log.now.lines watches.old raising.old.numbers.items (length log.now.lines) →
        IfOk result (λ line. IfNone line
        (AreWatched log.now.lines watches.new raising.new.numbers.items (length log.now.lines))) }
    ensures kept { (before : List ℕ) (n : ℕ) → AreRaised before raising.old.numbers.items →
        AreWatched log.now.lines watches.old before n →
        IfOk result (λ _. AreWatched log.now.lines watches.new before n) }
    ensures noted { AreNoted log.now.lines watches.old.rows →
        OnOk result (AreNoted log.now.lines watches.new.rows) }
    ensures stays { IfOk result (λ line. IfSome line
        (λ _. (raising.new.numbers.items ≡ raising.old.numbers.items)
        × (raising.new.top ≡ raising.old.top))) }
    ensures unchanged { OnErr result ((raising.new.numbers.items ≡ raising.old.numbers.items)
        × (raising.new.top ≡ raising.old.top)) }
{
    let top = raising.top;
    let offset = raising.numbers[b as usize] - 1;
    let placed = Placed {
        buffer: b,
        offset,
        end: offset + instance.buffer(b).size(),
    };
    raising.changes.clear();
    match look_below(
        raising, instance, placed, sections, left, is_first, log, watches,
    ) {
        Ok(None) => Ok(None),
        found => {
            put_back(&mut raising.numbers, &raising.changes);
            raising.top = top;
            found
        }
    }
}
