//! Going over the edges in order of time.

ghost use Rattle.std.specs.Prelude.{◌≡◌, ◌≢◌, ◌<◌, ◌≤◌, ◌↔◌, ℕ, length, IfOk, IsTrue, OnOk};
ghost use Rattle.dsa_terms.specs.Claims.{Rises};
ghost use Rattle.dsa_terms.specs.Parts.{has};
ghost use Rattle.dsa_model.specs.Lists.{pair_at};
ghost use Rattle.lifetime.specs.Edges.{AreEdges, AreThinnedBefore, IsPassed};
ghost use Rattle.lifetime.specs.Runs.{live_before};
ghost use Rattle.lifetime.specs.Switching.{IsSwitched};

use crate::thin::Thinned;
use dsa_model::Instance;
use std::alloc::{AllocError, Global};

/// The place of the first edge past a moment, and whether the moment changed what is live.
#[derive(Drop)]
struct Passed {
    next: usize,
    changed: bool,
}

/// Puts b into the rising list if it is wanted there and takes it out if not; tells whether that
/// changed the list.
fn switch(numbers: &mut Vec<u32>, b: u32, wanted: bool) -> Result<bool, AllocError>
    requires { Rises numbers.old.items }
    ensures switched { OnOk result (IsSwitched numbers.old.items b wanted numbers.new.items) }
    ensures changed { IfOk result (λ changed.
        IsTrue changed ↔ (has b numbers.old.items ≢ wanted)) }
{
    match numbers.binary_search(&b) {
        Ok(place) => {
            if !wanted {
                numbers.remove(place);
            }
            Ok(!wanted)
        }
        Err(place) => {
            if wanted {
                numbers.insert(place, b)?;
            }
            Ok(wanted)
        }
    }
}

/// Brings the list of what is live up to date with all edges at the moment of the first of them.
fn pass(
    instance: &Instance,
    edges: &[(u64, u32)],
    first: usize,
    live: &mut Vec<u32>,
) -> Result<Passed, AllocError>
    requires edges { AreEdges instance.now edges.now }
    requires in_edges { first < length edges.now }
    requires fresh { (k : ℕ) → k < first → (pair_at edges.now k).0 < (pair_at edges.now first).0 }
    requires were { live.old.items ≡ live_before instance.now (pair_at edges.now first).0 }
    ensures { IfOk result (λ passed.
        IsPassed instance.now edges.now first passed.next passed.changed live.new.items) }
{
    let moment = edges[first].0;
    let mut next = first;
    let mut changed = false;
    while next < edges.len() && edges[next].0 == moment {
        let b = edges[next].1;
        if switch(live, b, instance.buffer(b).live_at(moment))? {
            changed = true;
        }
        next += 1;
    }
    Ok(Passed { next, changed })
}

/// The runs of moments in which the same buffers, at least one, are live, thinned as they are met.
pub(crate) fn thinned_runs(
    alloc: Global,
    instance: &Instance,
    edges: &[(u64, u32)],
) -> Result<Thinned, AllocError>
    requires { AreEdges instance.now edges.now }
    ensures runs { IfOk result (AreThinnedBefore instance.now edges.now (length edges.now)) }
    ensures limit { IfOk result (λ thinned. length thinned ≤ length edges.now) }
{
    let mut live = Vec::with_capacity(alloc, instance.len() as usize)?;
    let mut thinned = Thinned::new(alloc);
    let mut next = 0;
    while next < edges.len() {
        let moment = edges[next].0;
        let passed = pass(instance, edges, next, &mut live)?;
        if passed.changed && !live.is_empty() {
            thinned.put(alloc, moment, &live)?;
        }
        next = passed.next;
    }
    Ok(thinned)
}
