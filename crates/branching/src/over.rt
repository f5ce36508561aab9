//! Claims that one Over line refutes.

ghost use Rattle.std.specs.Prelude.{◌≡◌, ◌+◌, ◌-◌, ◌^◌, ◌<◌, ◌≤◌, true, false, length};
ghost use Rattle.std.specs.Prelude.{None, IfNone, IfOk, IfSome};
ghost use Rattle.dsa_terms.specs.Buffers.{buffer as buffer_at};
ghost use Rattle.dsa_terms.specs.Claims.{Claim as ClaimTerm};
ghost use Rattle.dsa_terms.specs.Search.{is_tall as is_tall_entry};
ghost use Rattle.canonical_order.specs.Claims.{least_buffer};
ghost use Rattle.canonical_order.specs.Levels.{AreLevels};
ghost use Rattle.refute_log.specs.Lines.{line_value};
ghost use Rattle.branching.specs.Overs.{RefutesAtOnce};
ghost use Rattle.skyline.specs.Skies.{last_claim};

use crate::lines::tall_line;
use crate::task::Task;
use canonical_order::Lows;
use claim_levels::Levels;
use dsa_model::NoMemory;
use refute_log::Line;
use skyline::Skyline;
use std::alloc::Global;

/// Whether the buffer, which has this level, ends above the capacity. Where one of the greatest
/// size does not, its own size is not looked up.
fn is_tall(task: &Task, b: u32, level: u64) -> bool
    requires b_in { b < length task.now.instance.now }
    requires some { 0 < level }
    requires limit { level ≤ 2 ^ 55 }
    ensures some { result ≡ true →
        task.now.capacity < level - 1 + (buffer_at task.now.instance.now b).size }
    ensures none { result ≡ false →
        level - 1 + (buffer_at task.now.instance.now b).size ≤ task.now.capacity }
{
    if level + task.size <= task.capacity + 1 {
        return false;
    }
    task.capacity < level - 1 + task.instance.buffer(b).size()
}

/// The least buffer of the claim that ends above the capacity at its low. Where one of the greatest
/// size does not at the greatest low, none is looked at.
fn tall(task: &Task, levels: &Levels) -> Option<u32>
    requires { length levels.now ≡ length task.now.instance.now }
    ensures { let I = task.now.instance.now in (l : ClaimTerm) → AreLevels I l levels.now →
        result ≡ least_buffer (is_tall_entry I task.now.capacity) l }
{
    if levels.top() + task.size <= task.capacity + 1 {
        return None;
    }
    let left = levels.left();
    for i in 0..left.len() {
        let b = left[i];
        if is_tall(task, b, levels.at(b as usize)) {
            return Some(b);
        }
    }
    None
}

/// The Over line of a tall buffer of the last claim, or else of its buffers at the start of a
/// section that is too full; none only where no buffer is tall. The levels are those of the claim.
pub fn over_line(
    alloc: Global,
    task: &Task,
    sky: &Skyline,
    levels: &Levels,
) -> Result<Option<Line>, NoMemory>
    requires subject { sky.now.instance ≡ task.now.instance.now }
    requires levels { AreLevels task.now.instance.now (last_claim sky.now.claims) levels.now }
    ensures none { let I = task.now.instance.now in let l = last_claim sky.now.claims in
        IfOk result (λ o. IfNone o (None ≡ least_buffer (is_tall_entry I task.now.capacity) l)) }
    ensures some { let I = task.now.instance.now in let l = last_claim sky.now.claims in
        IfOk result (λ o. IfSome o (λ line.
        RefutesAtOnce I task.now.capacity l (line_value line))) }
{
    let _count = sky.instance().len();
    if let Some(b) = tall(task, levels) {
        return Ok(Some(tall_line(alloc, task, b)?));
    }
    match sky.overloaded_at(task.capacity, levels.as_slice(), levels.top()) {
        None => Ok(None),
        Some((moment, height)) => {
            let claim = levels.ground(alloc)?;
            Ok(Some(Line::Over {
                claim,
                moment,
                height,
                modulus: 1,
            }))
        }
    }
}
