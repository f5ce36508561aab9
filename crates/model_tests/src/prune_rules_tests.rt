//! The rules over a claim beside its instance.

use crate::made::{THREE, instance_of};
use canonical_order::{Claim, View};
use dsa_model::Instance;
use prune_rules::{are_alike, dominated, is_below, is_twin, twin_before};
use std::alloc::Global;

/// The least buffer that dominates the third, the least twin before the second, whether the second
/// is below the third, and whether the second is a twin of the first, where the claim has all
/// three.
fn ruled(alloc: Global, three: &Instance) -> Option<(Option<u32>, Option<u32>, bool, bool)> {
    let claim = Claim::from_pairs(alloc, &[(0, 1), (1, 2), (2, 3)]).ok()?;
    if three.len() != 3 {
        return None;
    }
    let view = View {
        instance: three,
        claim: &claim,
    };
    Some((
        dominated(&view, 2),
        twin_before(&view, 1),
        is_below(&view, 2, 1),
        is_twin(&view, 0, 1),
    ))
}

/// Whether the first two of three buffers are alike.
fn has_alike(three: &Instance) -> bool {
    three.len() == 3 && are_alike(three.buffer(0), three.buffer(1))
}

#[test]
fn a_twin_stands_before_the_second_of_two_alike(rt: HostRuntime) {
    let three = instance_of(rt.alloc(), THREE).expect(&rt, "memory");
    let want = Some((Some(0), Some(0), true, false));
    assert!(rt; ruled(rt.alloc(), &three) == want);
    assert!(rt; has_alike(&three));
}
