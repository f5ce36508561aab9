//! First-fit and best-fit over an order.

ghost use Rattle.std.specs.Prelude.{◌≡◌, ◌^◌, ◌<◌, List, length, [], map, IfOk};
ghost use Rattle.std.specs.List.Sorted.{IsPermutation};
ghost use Rattle.dsa_terms.specs.Buffers.{IsInstance};
ghost use Rattle.dsa_terms.specs.Claims.{Entry};
ghost use Rattle.dsa_terms.specs.Fits.{best_fit, first_fit, fitted, neighbours};
ghost use Rattle.dsa_terms.specs.Layouts.{IsLayout};
ghost use Rattle.dsa_terms.specs.Parts.{offsets_of};
ghost use Rattle.dsa_terms.specs.Plans.{layout_height};
ghost use Rattle.first_fit.specs.Rules.{IsOrderOf, rule_of};
ghost use Rattle.first_fit.specs.Seats.{AreSeats, seat_of};

use crate::places::{best_place, first_place};
use crate::seats::{Seat, insert_seat};
use crate::spans::Span;
use dsa_model::{Instance, NoMemory};
use std::alloc::{AllocError, Global};

/// How a buffer gets its offset.
#[derive(Clone, Copy)]
pub(crate) enum Fit {
    /// The least at which it fits.
    First,
    /// In the shortest free range that holds it.
    Best,
}

/// Where the rule puts `b` beside the placed buffers, of which only those count that share a
/// moment with it.
fn place(instance: &Instance, rule: Fit, b: u32, seats: &[Seat]) -> u64
    requires sound { IsInstance instance.now }
    requires in_range { b < length instance.now }
    requires seats { AreSeats instance.now seats.now }
    ensures { let I = instance.now in (placed : List Entry) →
        IsPermutation (map (seat_of I) placed) seats.now →
        result ≡ rule_of rule I b (neighbours I b placed) }
{
    match rule {
        Fit::First => first_place(instance, b, seats),
        Fit::Best => best_place(instance, b, seats),
    }
}

/// The offsets that the buffers get by the rule, one after another in the order.
pub(crate) fn fitted(
    alloc: Global,
    instance: &Instance,
    rule: Fit,
    order: &[u32],
) -> Result<Vec<u64>, AllocError>
    requires { IsOrderOf instance.now order.now }
    ensures value { IfOk result (λ offsets.
        let placed = fitted (rule_of rule) instance.now order.now [] in
        offsets.items ≡ offsets_of instance.now placed) }
    ensures layout { IfOk result (λ offsets.
        IsLayout instance.now (layout_height instance.now offsets.items) offsets.items) }
    ensures limit { IfOk result (λ offsets. layout_height instance.now offsets.items < 2 ^ 54) }
{
    let mut offsets = vec![in alloc; 0u64; instance.len() as usize]?;
    let mut seats = Vec::with_capacity(alloc, order.len())?;
    for b in order {
        let start = place(instance, rule, *b, &seats);
        let stop = start + instance.buffer(*b).size();
        let span = Span { start, stop };
        insert_seat(&mut seats, Seat { buffer: *b, span })?;
        offsets[*b as usize] = start;
    }
    Ok(offsets)
}

/// First-fit: the buffers are placed in the order, each at its least aligned offset, at or above
/// its lowest, at which it is apart from all placed buffers that share a moment with it. The
/// offsets, by number, in bytes. The rule is that of storage allocation (Knuth, The Art of Computer
/// Programming, volume 1, 2.5).
///
/// The caller owes an order that has each buffer once.
#[tactic(auto, unfolding(dsa_terms::specs::Fits::first_fit))]
pub fn first_fit(alloc: Global, instance: &Instance, order: &[u32]) -> Result<Vec<u64>, NoMemory>
    requires { IsOrderOf instance.now order.now }
    ensures value { IfOk result (λ offsets. offsets.items ≡ first_fit instance.now order.now) }
    ensures layout { IfOk result (λ offsets.
        IsLayout instance.now (layout_height instance.now offsets.items) offsets.items) }
    ensures limit { IfOk result (λ offsets. layout_height instance.now offsets.items < 2 ^ 54) }
{
    Ok(fitted(alloc, instance, Fit::First, order)?)
}

/// Best-fit: the buffers are placed in the order. A free range is a greatest range of addresses
/// that meets no placed buffer that shares a moment with the one to place, and that ends at or
/// below the greatest top of these. Of the free ranges that hold the buffer at the least aligned
/// offset there that is not below its lowest, it takes the shortest, and of those the lowest. Where
/// none holds it, it goes to the least aligned offset at or above both the greatest top and its
/// lowest. The offsets, by number, in bytes.
///
/// The caller owes an order that has each buffer once.
#[tactic(auto, unfolding(dsa_terms::specs::Fits::best_fit))]
pub fn best_fit(alloc: Global, instance: &Instance, order: &[u32]) -> Result<Vec<u64>, NoMemory>
    requires { IsOrderOf instance.now order.now }
    ensures value { IfOk result (λ offsets. offsets.items ≡ best_fit instance.now order.now) }
    ensures layout { IfOk result (λ offsets.
        IsLayout instance.now (layout_height instance.now offsets.items) offsets.items) }
    ensures limit { IfOk result (λ offsets. layout_height instance.now offsets.items < 2 ^ 54) }
{
    Ok(fitted(alloc, instance, Fit::Best, order)?)
}
