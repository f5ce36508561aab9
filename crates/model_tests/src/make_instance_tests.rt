//! Worked texts for a seed and a count, and the greatest count.

use crate::made::is_text;
use dsa_model::{BUFFER_LIMIT, Fail};
use make_instance::{MakeFault, make};
use std::alloc::Global;

/// Seeds and counts, each with its text.
static TEXTS: [(u64, u64, &[u8]); 3] = [
    (
        1,
        2,
        b"id,lower,upper,size,alignment,gaps\nb0,2,7,14,4,\nb1,2,6,51,3,\n",
    ),
    (
        2147483645,
        2,
        b"id,lower,upper,size,alignment,gaps\nb0,0,14,58,3,\nb1,0,15,39,1,1-14\n",
    ),
    (7, 0, b"id,lower,upper,size,alignment,gaps\n"),
];

/// Whether this text is made of the seed and the count.
fn is_made(alloc: Global, seed: u64, count: u64, want: &[u8]) -> bool {
    is_text(make(alloc, seed, count).ok(), want)
}

#[test]
fn a_seed_and_a_count_give_a_text(rt: HostRuntime) {
    for &(seed, count, text) in &TEXTS {
        assert!(rt; is_made(rt.alloc(), seed, count, text), "of {seed}");
    }
}

/// Whether one buffer more than an instance has is too many.
fn is_refused(alloc: Global) -> bool {
    matches!(
        make(alloc, 1, 4097).err(),
        Some(Fail::Fault(MakeFault::CountTooLarge { count: 4097 }))
    )
}

#[test]
fn no_more_buffers_than_an_instance_has_are_made(rt: HostRuntime) {
    assert!(rt; make(rt.alloc(), 1, BUFFER_LIMIT as u64).is_ok());
    assert!(rt; is_refused(rt.alloc()));
}
