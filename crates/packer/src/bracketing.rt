//! The bracket in which to pack.

ghost use Rattle.std.specs.Prelude.{◌≡◌, ◌-◌, ◌≤◌, IfOk, length};
ghost use Rattle.dsa_terms.specs.Plans.{layout_height};
ghost use Rattle.dsa_terms.specs.Starts.{best_start};
ghost use Rattle.first_fit.specs.Starts.{IsStart};
ghost use Rattle.packer.specs.Packs.{placing_pairs, placing_steps, placings};
ghost use Rattle.packer.specs.Starts.{IsOpenFrom};

use dsa_model::{Instance, NoMemory};
use first_fit::Start;
use min_capacity::Bracket;
use placing_search::improve;
use std::alloc::Global;

/// The greatest number of steps for placings, so that those that are left reach the searches soon.
const PLACING_LIMIT: u64 = 1 << 16;

/// How many pairs of buffers are looked at for a step.
const PAIRS: u64 = 1 << 17;

/// How many pairs of buffers placing all of them anew counts as, beside those that there are.
const FURTHER_PAIRS: u64 = 1 << 14;

/// How many pairs of buffers placing all of them anew counts as.
fn placing_pairs(instance: &Instance) -> u64
    ensures { result ≡ placing_pairs (length instance.now) }
{
    let count = instance.len() as u64;
    count * count + FURTHER_PAIRS
}

/// The bracket with the layout of the start. The caller owes one that is no higher than the best of
/// the six.
fn with_layout(instance: &Instance, bracket: Bracket, start: Start) -> Bracket
    requires bracket { IsOpenFrom instance.now bracket }
    requires start { IsStart instance.now start }
    requires to_best { start.height ≤ layout_height instance.now (best_start instance.now) }
    ensures bracket { IsOpenFrom instance.now result }
    ensures low { result.low ≡ bracket.low }
    ensures log { result.log ≡ bracket.log }
{
    let _count = instance.len();
    let Bracket { low, log, .. } = bracket;
    Bracket {
        low,
        log,
        high: start.height,
        layout: start.offsets,
    }
}

/// The bracket with a layout that is found by placing orders, if it is lower, the steps that are
/// not for placings, and how often all buffers were placed. It stops early at `floor`, in bytes.
pub(crate) fn improved(
    alloc: Global,
    instance: &Instance,
    bracket: Bracket,
    floor: u64,
    steps: u64,
) -> Result<(Bracket, u64, u64), NoMemory>
    requires { IsOpenFrom instance.now bracket }
    ensures bracket { IfOk result (λ found. IsOpenFrom instance.now found.0) }
    ensures low { IfOk result (λ found. found.0.low ≡ bracket.low) }
    ensures log { IfOk result (λ found. found.0.log ≡ bracket.log) }
    ensures steps { IfOk result (λ found. found.1 ≡ steps - placing_steps steps) }
    ensures placings { IfOk result (λ found.
        found.2 ≤ placings (length instance.now) steps) }
{
    let share = (steps / 6).min(PLACING_LIMIT);
    let passes = share * PAIRS / placing_pairs(instance);
    let start = Start {
        height: bracket.high,
        offsets: bracket.layout.to_vec(alloc)?,
    };
    let found = improve(alloc, instance, start, floor, passes)?;
    Ok((
        with_layout(instance, bracket, found.start),
        steps - share,
        found.passes,
    ))
}
