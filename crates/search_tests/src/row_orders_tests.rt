//! The orders of six buffers, and offsets carried back from one.

use crate::instances::{Row, instance_of};
use dsa_model::Instance;
use row_orders::{Order, carry_back, in_order};
use std::alloc::Global;

/// Buffers that the orders put differently.
static SIX: [Row; 6] = [
    (1, 5, 1, 1),
    (4, 5, 4, 1),
    (2, 4, 5, 1),
    (4, 7, 1, 1),
    (4, 8, 5, 1),
    (2, 5, 2, 1),
];

static ORDERS: [(Order, &[u32]); 5] = [
    (Order::File, &[0, 1, 2, 3, 4, 5]),
    (Order::Area, &[4, 2, 5, 0, 1, 3]),
    (Order::Met, &[0, 5, 1, 3, 4, 2]),
    (Order::Lifetime, &[0, 4, 3, 5, 2, 1]),
    (Order::Upper, &[4, 3, 0, 1, 5, 2]),
];

/// Whether the instance is ordered so.
fn is_ordered(alloc: Global, instance: &Instance, order: Order, want: &[u32]) -> bool {
    match in_order(alloc, instance, order) {
        Ok(numbers) => numbers.as_slice() == want,
        Err(_) => false,
    }
}

#[test]
fn six_buffers_by_each_order(rt: HostRuntime) {
    let six = instance_of(rt.alloc(), &SIX).expect(&rt, "memory");
    for &(order, want) in &ORDERS {
        assert!(rt; is_ordered(rt.alloc(), &six, order, want), "{want:?}");
    }
}

/// Three buffers, of which the third is the first by area, and the second the last.
static THREE_AREAS: [Row; 3] = [(0, 1, 3, 1), (0, 1, 2, 1), (0, 1, 4, 1)];

/// The offsets 0, 4 and 7 of three buffers by area, in the file's order.
fn carried(alloc: Global, three: &Instance) -> Option<Vec<u64>> {
    let order = in_order(alloc, three, Order::Area).ok()?;
    if order.len() != 3 {
        return None;
    }
    carry_back(alloc, &order, &[0, 4, 7]).ok()
}

/// Whether they are carried back to where they belong.
fn are_carried(alloc: Global, three: &Instance) -> bool {
    match carried(alloc, three) {
        Some(back) => back.as_slice() == [4, 7, 0].as_slice(),
        None => false,
    }
}

#[test]
fn offsets_go_back_to_the_buffers_of_the_instance(rt: HostRuntime) {
    let three = instance_of(rt.alloc(), &THREE_AREAS).expect(&rt, "memory");
    assert!(rt; are_carried(rt.alloc(), &three));
}
