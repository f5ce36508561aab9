//! Circles, unrolled and refused.

use crate::made::is_told;
use cyclic_plan::unroll;
use dsa_model::Fail;
use std::alloc::Global;

/// The text of the fault of a file whose moments repeat with a period of 10, or nothing where it
/// has none.
fn fault_of(alloc: Global, text: &[u8]) -> Option<String> {
    if text.len() > 67108864 {
        return None;
    }
    let mut told = String::new(alloc);
    match unroll(alloc, text, 10).err() {
        None => {}
        Some(Fail::Fault(fault)) => fault.append_to(&mut told).ok()?,
        Some(Fail::NoMemory) => return None,
    }
    Some(told)
}

/// Two buffers, of which the first wraps.
static WRAPPED: &[u8] = b"id,lower,upper,size\nA,8,2,4\nB,2,8,4\n";

/// The same, unrolled.
static UNROLLED: &[u8] = b"id,lower,upper,size,gaps\nA,0,10,4,2-8\nB,2,8,4,\n";

/// Whether the two are unrolled so.
fn is_unrolled(alloc: Global) -> bool {
    match unroll(alloc, WRAPPED, 10) {
        Ok(unrolled) => unrolled.buffers == 2 && unrolled.text.as_slice() == UNROLLED,
        Err(_) => false,
    }
}

#[test]
fn a_row_that_wraps_becomes_the_whole_period_with_a_gap(rt: HostRuntime) {
    assert!(rt; is_unrolled(rt.alloc()));
}

/// Files of circles, each with the text of its fault.
static CIRCLES: [(&[u8], &str); 5] = [
    (b"id,lower,upper,size\nA,8,10,4\n", ""),
    (b"id,lower,upper,size\nA,10,2,4\n", "row 0 outside"),
    (b"id,lower,upper,size\nA,2,11,4\n", "row 0 outside"),
    (
        b"id,lower,upper,size\nA,8,2,4\nB,3,3,4\n",
        "row 1 empty lifetime",
    ),
    (
        b"id,lower,upper,size\nA,3,3,4\nA,8,2,4\n",
        "row 1 duplicate id 0",
    ),
];

#[test]
fn a_bad_circle_is_named(rt: HostRuntime) {
    for &(text, want) in &CIRCLES {
        assert!(rt; is_told(fault_of(rt.alloc(), text), want), "{want}");
    }
}
