//! Which two buffers of an order change their places.

ghost use Rattle.std.specs.Prelude.{◌^◌, ◌<◌, ◌≤◌, length};
ghost use Rattle.first_fit.specs.Rules.{IsOrderOf};
ghost use Rattle.placing_search.specs.Rankings.{IsRankingOf};
ghost use Rattle.placing_search.specs.Stacks.{IsStackOf};

use crate::draws::Draws;
use crate::rankings::Ranking;
use crate::stacking::Stack;
use dsa_model::Instance;

/// The place in the stack of the first buffer from place `from` on, and around the end, that
/// reaches the height; `from` where none does.
fn top_place(instance: &Instance, stack: &Stack, height: u64, from: usize) -> usize
    requires stack { IsStackOf instance.now stack.now }
    requires from { from < length instance.now }
    ensures { result < length instance.now }
{
    let count = instance.len() as usize;
    for k in 0..count {
        let place = (from + k) % count;
        if stack.ends[place] == height {
            return place;
        }
    }
    from
}

/// The first place from `from` on, and around the end, whose buffer shares a moment with `b`, not
/// being `b`; `from` where there is none.
fn near_place(instance: &Instance, order: &[u32], b: u32, from: usize) -> usize
    requires order { IsOrderOf instance.now order.now }
    requires in_range { b < length instance.now }
    requires from { from < length instance.now }
    ensures { result < length instance.now }
{
    let count = instance.len() as usize;
    for k in 0..count {
        let place = (from + k) % count;
        let c = order[place];
        if c != b && instance.do_share(b, c) {
            return place;
        }
    }
    from
}

/// Two places: that of a buffer that reaches the height of the stack, or of one that shares a
/// moment with it; and an earlier one, or any where there is no earlier one.
pub(crate) fn two_places(
    instance: &Instance,
    ranking: &Ranking,
    stack: &Stack,
    height: u64,
    draws: &mut Draws,
) -> (usize, usize)
    requires ranking { IsRankingOf instance.now ranking.now }
    requires stack { IsStackOf instance.now stack.now }
    requires some { 0 < length instance.now }
    ensures later { result.0 < length instance.now }
    ensures earlier { result.1 < length instance.now }
{
    let count = instance.len() as usize;
    let top = stack.order[top_place(instance, stack, height, draws.below(count))];
    let place = if draws.below(2) == 0 {
        ranking.places[top as usize]
    } else {
        near_place(instance, &ranking.order, top, draws.below(count))
    };
    let limit = if place == 0 { count } else { place };
    (place, draws.below(limit))
}
