//! Where one buffer goes beside those that are placed.

ghost use Rattle.std.specs.Prelude.{◌≡◌, ◌^◌, ◌<◌, ◌≤◌, length, List, map, option_map, IfSome};
ghost use Rattle.std.specs.List.Sorted.{IsPermutation};
ghost use Rattle.dsa_terms.specs.Buffers.{IsInstance};
ghost use Rattle.dsa_terms.specs.Claims.{Entry};
ghost use Rattle.dsa_terms.specs.Fits.{best_place, first_place, holds, least_from, neighbours};
ghost use Rattle.first_fit.specs.Free.{IsBelow, narrowed, range_of};
ghost use Rattle.first_fit.specs.Seats.{AreSeats, seat_of};

use crate::seats::Seat;
use crate::spans::Span;
use dsa_model::Instance;

/// The least aligned offset of `b` at or above both an address and its lowest.
#[tactic(auto, unfolding(dsa_terms::specs::Fits::least_from))]
fn least_from(instance: &Instance, b: u32, from: u64) -> u64
    requires in_range { b < length instance.now }
    requires limit { from ≤ 2 ^ 53 }
    ensures value { result ≡ least_from instance.now b from }
    ensures limit { result ≤ 2 ^ 54 }
{
    let buffer = instance.buffer(b);
    buffer.least_offset(from.max(buffer.lowest()))
}

/// Whether `b` has room in the range at the least offset that it may have there.
#[tactic(auto, unfolding(dsa_terms::specs::Fits::holds))]
fn has_room(instance: &Instance, b: u32, range: Span) -> bool
    requires in_range { b < length instance.now }
    requires limit { range.start ≤ 2 ^ 53 }
    ensures { result ≡ holds instance.now b (range_of range) }
{
    let size = instance.buffer(b).size();
    if range.stop < range.start + size {
        return false;
    }
    least_from(instance, b, range.start) + size <= range.stop
}

/// The range where it holds `b` and is shorter than the best range so far, which is lower; else
/// the best so far.
fn narrowed(instance: &Instance, b: u32, best: Option<Span>, range: Span) -> Option<Span>
    requires in_range { b < length instance.now }
    requires limit { range.start ≤ 2 ^ 53 }
    requires some { range.start < range.stop }
    requires below { IfSome best (IsBelow range.start) }
    ensures value { option_map range_of result
        ≡ narrowed instance.now b (option_map range_of best) (range_of range) }
    ensures below { IfSome result (IsBelow range.start) }
{
    if !has_room(instance, b, range) {
        return best;
    }
    if let Some(other) = best {
        if other.stop - other.start <= range.stop - range.start {
            return best;
        }
    }
    Some(range)
}

/// The least aligned offset, at or above its lowest, at which `b` meets none of the seats that
/// share a moment with it: the least in the first range below the start of a seat that has room, or
/// past all of them where none has.
pub(crate) fn first_place(instance: &Instance, b: u32, seats: &[Seat]) -> u64
    requires sound { IsInstance instance.now }
    requires in_range { b < length instance.now }
    requires seats { AreSeats instance.now seats.now }
    ensures { let I = instance.now in (placed : List Entry) →
        IsPermutation (map (seat_of I) placed) seats.now →
        result ≡ first_place I b (neighbours I b placed) }
{
    let mut reach = 0;
    for seat in seats {
        let below = Span {
            start: reach,
            stop: seat.span.start,
        };
        if has_room(instance, b, below) {
            break;
        }
        if reach < seat.span.stop && instance.do_share(b, seat.buffer) {
            reach = seat.span.stop;
        }
    }
    least_from(instance, b, reach)
}

/// The least offset that `b` may have in the shortest free range that holds it, the lowest of them;
/// and past all the seats where none holds it. Only those seats count that share a moment with `b`:
/// a free range is what lies between the greatest stop so far and the next start.
pub(crate) fn best_place(instance: &Instance, b: u32, seats: &[Seat]) -> u64
    requires sound { IsInstance instance.now }
    requires in_range { b < length instance.now }
    requires seats { AreSeats instance.now seats.now }
    ensures { let I = instance.now in (placed : List Entry) →
        IsPermutation (map (seat_of I) placed) seats.now →
        result ≡ best_place I b (neighbours I b placed) }
{
    let mut best = None;
    let mut reach = 0;
    for seat in seats {
        if !instance.do_share(b, seat.buffer) {
            continue;
        }
        if reach < seat.span.start {
            let free = Span {
                start: reach,
                stop: seat.span.start,
            };
            best = narrowed(instance, b, best, free);
        }
        reach = seat.span.stop.max(reach);
    }
    let from = match best {
        Some(free) => free.start,
        None => reach,
    };
    least_from(instance, b, from)
}
