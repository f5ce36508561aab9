//! The levels of a child, one buffer after another.

ghost use Rattle.std.specs.Prelude.{◌≡◌, ℕ, ◌<◌, List, OnOk, slice_index, true};
ghost use Rattle.std.specs.List.{All};
ghost use Rattle.dsa_terms.specs.Claims.{IsIn};
ghost use Rattle.lifetime.specs.SectionList.{AreSectionsOf, count_of, members_of, sections_of};
ghost use Rattle.claim_levels.specs.Levels.{AreLeft, HasLowChild, IsLeastLevel};
ghost use Rattle.claim_levels.specs.Placings.{IsPlaced};
ghost use Rattle.claim_levels.specs.Raisings.{IsRaised, IsRaising};

use crate::placed::Placed;
use crate::raising::Raising;
use dsa_model::{Instance, NoMemory};
use lifetime::Sections;
use line_index::level_at;

/// Writes the level of c in the child; it has the level `now` as yet, and is in the claim.
fn raise(
    raising: &mut Raising,
    instance: &Instance,
    placed: Placed,
    c: u32,
    now: u64,
) -> Result<(), NoMemory>
    ghost levels: { List ℕ }
    requires placed { IsPlaced instance.now levels placed }
    requires low { HasLowChild instance.now levels placed.buffer }
    requires raising { IsRaising instance.now levels placed.buffer raising.old }
    requires now { now ≡ slice_index raising.old.numbers.items c }
    requires some { 0 < now }
    ensures raising { IsRaising instance.now levels placed.buffer raising.new }
    ensures done { OnOk result
        (IsRaised instance.now levels placed.buffer raising.new.numbers.items c) }
    ensures kept { (d : ℕ) →
        IsRaised instance.now levels placed.buffer raising.old.numbers.items d →
        OnOk result (IsRaised instance.now levels placed.buffer raising.new.numbers.items d) }
{
    let _count = instance.len();
    let level = placed.level_of(instance, c, now);
    if now != level {
        raising.put(c, now, level)?;
    }
    Ok(())
}

/// Writes the levels of these buffers, as far as they are in the claim. Where a level stays as it
/// is, nothing is written.
fn raise_each(
    raising: &mut Raising,
    instance: &Instance,
    placed: Placed,
    buffers: &[u32],
) -> Result<(), NoMemory>
    ghost levels: { List ℕ }
    requires placed { IsPlaced instance.now levels placed }
    requires low { HasLowChild instance.now levels placed.buffer }
    requires raising { IsRaising instance.now levels placed.buffer raising.old }
    ensures raising { IsRaising instance.now levels placed.buffer raising.new }
    ensures done { OnOk result ((c : ℕ) → IsIn c buffers.now →
        IsRaised instance.now levels placed.buffer raising.new.numbers.items c) }
    ensures kept { (d : ℕ) →
        IsRaised instance.now levels placed.buffer raising.old.numbers.items d →
        OnOk result (IsRaised instance.now levels placed.buffer raising.new.numbers.items d) }
{
    for i in 0..buffers.len() {
        let c = buffers[i];
        let now = level_at(&raising.numbers, c as usize);
        if 0 < now {
            raise(raising, instance, placed, c, now)?;
        }
    }
    Ok(())
}

/// Writes the levels of the members of these sections.
fn raise_near(
    raising: &mut Raising,
    instance: &Instance,
    placed: Placed,
    sections: &Sections,
    own: &[u32],
) -> Result<(), NoMemory>
    ghost levels: { List ℕ }
    requires placed { IsPlaced instance.now levels placed }
    requires low { HasLowChild instance.now levels placed.buffer }
    requires raising { IsRaising instance.now levels placed.buffer raising.old }
    requires own { All (λ s. s < count_of sections.now) own.now }
    ensures raising { IsRaising instance.now levels placed.buffer raising.new }
    ensures done { OnOk result ((s c : ℕ) → IsIn s own.now → IsIn c (members_of sections.now s) →
        IsRaised instance.now levels placed.buffer raising.new.numbers.items c) }
{
    for i in 0..own.len() {
        raise_each(raising, instance, placed, sections.members(own[i]))?;
    }
    Ok(())
}

/// Whether the sections have fewer than so many members together.
fn are_few(sections: &Sections, own: &[u32], most: usize) -> bool
    requires own { All (λ s. s < count_of sections.now) own.now }
{
    let mut count = 0usize;
    for i in 0..own.len() {
        count = count.saturating_add(sections.members(own[i]).len());
    }
    count < most
}

/// Writes each level of the child. Where the placed buffer is the first choice, only buffers that
/// share a moment with it rise, so the members of its sections alone are gone over, if these are
/// fewer than the buffers that are left.
pub(crate) fn raise_all(
    raising: &mut Raising,
    instance: &Instance,
    placed: Placed,
    sections: &Sections,
    left: &[u32],
    is_first: bool,
) -> Result<(), NoMemory>
    ghost levels: { List ℕ }
    requires placed { IsPlaced instance.now levels placed }
    requires low { HasLowChild instance.now levels placed.buffer }
    requires raising { IsRaising instance.now levels placed.buffer raising.old }
    requires sections { AreSectionsOf instance.now sections.now }
    requires left { AreLeft levels left.now }
    requires first { is_first ≡ true → IsLeastLevel levels placed.buffer }
    ensures raising { IsRaising instance.now levels placed.buffer raising.new }
    ensures done { OnOk result ((c : ℕ) →
        IsRaised instance.now levels placed.buffer raising.new.numbers.items c) }
{
    let _count = instance.len();
    let own = sections.sections_of(placed.buffer);
    if is_first && are_few(sections, own, left.len()) {
        raise_near(raising, instance, placed, sections, own)?;
        raise_each(raising, instance, placed, &[placed.buffer])?;
        return Ok(());
    }
    raise_each(raising, instance, placed, left)?;
    Ok(())
}
