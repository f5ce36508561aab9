//! Each call that takes memory, with memory.

use crate::made::{THREE, instance_of};
use canonical_order::{Claim, LowTable, Lows, View, child};
use dsa_model::{Instance, NoMemory};
use std::alloc::Global;

/// The whole claim of three buffers.
fn whole(alloc: Global, three: &Instance) -> Result<Claim, NoMemory> {
    if three.len() != 3 {
        return Err(NoMemory);
    }
    Claim::whole(alloc, three, &[0, 1, 2])
}

/// A copy of the child by the third one of the claim of three buffers from 0 on, whose lows are
/// written down.
fn child_by_third(alloc: Global, three: &Instance) -> Result<Claim, NoMemory> {
    let claim = Claim::from_pairs(alloc, &[(0, 0), (1, 0), (2, 0)])?;
    if three.len() != 3 {
        return Err(NoMemory);
    }
    let view = View {
        instance: three,
        claim: &claim,
    };
    let table = LowTable::of(alloc, view.instance(), &claim)?;
    child(alloc, &table, 2)?.copy(alloc)
}

/// Whether the claim was made, and has these pairs.
fn has_pairs(made: Result<Claim, NoMemory>, want: &[(u32, u64)]) -> bool {
    match made {
        Ok(claim) => claim.pairs() == want,
        Err(_) => false,
    }
}

#[test]
fn the_child_of_a_whole_claim_is_made(rt: HostRuntime) {
    let three = instance_of(rt.alloc(), THREE).expect(&rt, "memory");
    assert!(rt; has_pairs(whole(rt.alloc(), &three), &[(0, 0), (1, 0), (2, 0)]));
    assert!(rt; has_pairs(child_by_third(rt.alloc(), &three), &[(0, 2), (1, 2)]));
}
