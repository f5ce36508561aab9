//! Which buffers of a claim the search takes first, and in which order.

ghost use Rattle.std.specs.Prelude.{◌≡◌, ◌<◌, [], length, map, not, is_some, slice_index, IfOk, IfSome};
ghost use Rattle.dsa_terms.specs.Claims.{Claim as ClaimTerm};
ghost use Rattle.dsa_terms.specs.Lean.{IsOwnCite};
ghost use Rattle.dsa_terms.specs.Logs.{IsLegalCite, is_twin as is_twin_entry};
ghost use Rattle.dsa_terms.specs.Search.{choices, not_excluded};
ghost use Rattle.canonical_order.specs.Claims.{entry_of, least_buffer};
ghost use Rattle.canonical_order.specs.Levels.{AreLevels};
ghost use Rattle.refute_log.specs.Lines.{cite_value};
ghost use Rattle.branching.specs.Endings.{IsLeastEnding};

use crate::ending::{Ending, least_end, low_of};
use crate::task::Task;
use claim_levels::Levels;
use dsa_model::{Instance, NoMemory};
use prune_rules::are_alike;
use refute_log::Cite;
use std::alloc::Global;

/// Whether c, which is below b, is a twin before b in the claim of the levels, which has both.
fn is_twin(instance: &Instance, levels: &Levels, c: u32, b: u32) -> bool
    requires count { length levels.now ≡ length instance.now }
    requires c_in { 0 < slice_index levels.now c }
    requires b_in { 0 < slice_index levels.now b }
    requires before { c < b }
    ensures { let I = instance.now in (l : ClaimTerm) → AreLevels I l levels.now →
        result ≡ is_twin_entry I (entry_of l c) (entry_of l b) }
{
    if low_of(levels, b) < low_of(levels, c) {
        return false;
    }
    are_alike(instance.buffer(c), instance.buffer(b))
}

/// The first buffer that is a twin before b in the claim of the levels, which has b.
fn twin_before(instance: &Instance, levels: &Levels, b: u32) -> Option<u32>
    requires count { length levels.now ≡ length instance.now }
    requires b_in { 0 < slice_index levels.now b }
    ensures { let I = instance.now in (l : ClaimTerm) → AreLevels I l levels.now →
        result ≡ least_buffer (λ f. is_twin_entry I f (entry_of l b)) l }
{
    for c in levels.left() {
        if *c >= b {
            return None;
        }
        if is_twin(instance, levels, *c, b) {
            return Some(*c);
        }
    }
    None
}

/// The cite of another buffer of the claim of the levels by which the buffer need not come first:
/// below the buffer that ends lowest, or else twin. Mostly its low says so, and no twin is looked
/// for where none can be.
pub(crate) fn own_cite(task: &Task, levels: &Levels, least: Ending, b: u32) -> Option<Cite>
    requires count { length levels.now ≡ length task.now.instance.now }
    requires b_in { 0 < slice_index levels.now b }
    ensures none { let I = task.now.instance.now in (l : ClaimTerm) → AreLevels I l levels.now →
        IsLeastEnding I l (length I) least →
        not_excluded I l (entry_of l b) ≡ not (is_some result) }
    ensures legal { let I = task.now.instance.now in (l : ClaimTerm) → AreLevels I l levels.now →
        IsLeastEnding I l (length I) least →
        IfSome result (λ cite. IsLegalCite I [] l (entry_of l b) (cite_value cite)) }
    ensures own { IfSome result (λ cite. IsOwnCite (cite_value cite)) }
{
    let _count = task.instance.len();
    if least.end <= low_of(levels, b) {
        return Some(Cite::Below(least.buffer));
    }
    if !task.twins.may_have(b) {
        return None;
    }
    match twin_before(task.instance, levels, b) {
        Some(c) => Some(Cite::Twin(c)),
        None => None,
    }
}

/// The buffers that the search takes of the claim of the levels: the one of least offset first, and
/// of these the one of least number. The claim itself is not made.
pub fn choices(alloc: Global, task: &Task, levels: &Levels) -> Result<Vec<u32>, NoMemory>
    requires count { length levels.now ≡ length task.now.instance.now }
    ensures { let I = task.now.instance.now in (l : ClaimTerm) → AreLevels I l levels.now →
        IfOk result (λ v. map (entry_of l) v.items ≡ choices I (not_excluded I) l) }
{
    dsa_search_laws::choices_are_in_order();
    let least = least_end(task.instance, levels);
    let mut keys = Vec::with_capacity(alloc, levels.left().len())?;
    for b in levels.left() {
        if own_cite(task, levels, least, *b).is_none() {
            keys.push((low_of(levels, *b), *b))?;
        }
    }
    keys.sort_unstable();
    Ok(keys.iter().map(|key| key.1).collect(alloc)?)
}
