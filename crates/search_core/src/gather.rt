//! The layout of the first claim, gathered on the way back from an empty one.

ghost use Rattle.std.specs.Prelude.{◌≡◌, ◌<◌, [], List, Some, None, IfOk, OnOk, length, map};
ghost use Rattle.std.specs.List.{All};
ghost use Rattle.dsa_terms.specs.Logs.{Line};
ghost use Rattle.dsa_terms.specs.Search.{first};
ghost use Rattle.search_core.specs.Descents.{IsPath, sky_root};
ghost use Rattle.search_core.specs.Seats.{seat_at};
ghost use Rattle.search_core.specs.Walks.{place_on};
ghost use Rattle.skyline.specs.Skies.{last_claim};

use crate::path::Path;
use branching::Task;
use canonical_order::Lows;
use dsa_model::NoMemory;
use std::alloc::Global;

/// These buffers, each with its offset.
fn gathered(alloc: Global, members: &[u32], offsets: &[u64]) -> Result<Vec<(u32, u64)>, NoMemory>
    requires { All (λ b. b < length offsets.now) members.now }
    ensures { IfOk result (λ v. v.items ≡ map (seat_at offsets.now) members.now) }
{
    let mut seats = Vec::new(alloc);
    for b in members {
        seats.push((*b, offsets[*b as usize]))?;
    }
    Ok(seats)
}

/// The first layout of the first claim, from the empty one of the last claim.
pub(crate) fn seats(
    alloc: Global,
    task: &Task,
    path: &mut Path,
) -> Result<Vec<(u32, u64)>, NoMemory>
    requires path { let I = task.now.instance.now in
        (lines : List Line) × IsPath I task.now.capacity lines (place_on path.old None) }
    requires found { let I = task.now.instance.now in
        first I task.now.capacity (last_claim path.old.sky.claims) ≡ Some [] }
    ensures value { let I = task.now.instance.now in
        IfOk result (λ v. first I task.now.capacity (sky_root path.old.sky) ≡ Some v.items) }
    ensures emptied { OnOk result (path.new.frames ≡ []) }
{
    let mut offsets = vec![in alloc; 0u64; task.instance.len() as usize]?;
    while let Some(kept) = path.go_back() {
        let b = kept.chosen;
        offsets[b as usize] = path.sky().low(b);
    }
    gathered(alloc, path.sky().members(), &offsets)
}
