//! What is stacked at the sections by one modulus.

ghost use Rattle.std.specs.Prelude.{◌≡◌, ◌+◌, ◌-◌, ◌^◌, ◌<◌, ◌≤◌, cond, length, max, nat_lt, take};
ghost use Rattle.std.specs.List.{All};
ghost use Rattle.dsa_model.specs.Buffer.{IsBuffer, buffer_limit};
ghost use Rattle.lifetime.specs.SectionList.{AreSectionsOf, count_of};
ghost use Rattle.lower_bounds.specs.Stacks.{IsFalling, IsModulus};
ghost use Rattle.lower_bounds.specs.Tallies.{AreTallies};

use dsa_model::Instance;
use lifetime::Sections;

/// What is stacked at the start of one section by a modulus, of buffers that are taken by falling
/// floor.
#[derive(Clone, Copy)]
pub(crate) struct Tally {
    /// The sum of their rounded sizes.
    total: u64,
    /// The greatest single rounding.
    spare: u64,
    /// The greatest stack over all heights.
    pub(crate) value: u64,
    /// The least height from which that stack begins.
    pub(crate) height: u64,
}

impl Tally {
    /// Of no buffers.
    pub(crate) const NONE: Tally = Tally {
        total: 0,
        spare: 0,
        value: 0,
        height: 0,
    };
}

/// The tally with one more buffer, given by its floor, its rounded size and what rounding adds. No
/// floor so far is below its own, so from there on all of them are stacked.
fn with(tally: Tally, floor: u64, rounded: u64, rounding: u64) -> Tally
    requires total { tally.total ≤ 2 ^ 53 }
    requires spare { tally.spare ≤ tally.total }
    requires floor { floor ≤ 2 ^ 41 }
    requires rounded { rounded ≤ 2 ^ 41 }
    requires rounding { rounding ≤ rounded }
    ensures total { result.total ≡ tally.total + rounded }
    ensures spare { result.spare ≡ max tally.spare rounding }
    ensures value { let top = floor + (result.total - result.spare) in
        result.value ≡ max tally.value top }
    ensures height { let top = floor + (result.total - result.spare) in
        result.height ≡ cond (nat_lt top tally.value) tally.height floor }
{
    let total = tally.total + rounded;
    let spare = tally.spare.max(rounding);
    let top = floor + (total - spare);
    if top < tally.value {
        return Tally {
            total,
            spare,
            value: tally.value,
            height: tally.height,
        };
    }
    Tally {
        total,
        spare,
        value: top,
        height: floor,
    }
}

/// Puts the buffer at a place of the order on the tallies of its sections.
fn put(
    instance: &Instance,
    sections: &Sections,
    order: &[u32],
    place: usize,
    modulus: u64,
    tallies: &mut [Tally],
)
    requires sections { AreSectionsOf instance.now sections.now }
    requires buffers { All IsBuffer instance.now }
    requires few { length instance.now ≤ buffer_limit }
    requires order { IsFalling instance.now order.now }
    requires in_order { place < length order.now }
    requires modulus { IsModulus modulus }
    requires before { let seen = take place order.now in
        AreTallies instance.now sections.now modulus seen tallies.old }
    ensures { let seen = take (place + 1) order.now in
        AreTallies instance.now sections.now modulus seen tallies.new }
{
    let b = order[place];
    let buffer = instance.buffer(b);
    if buffer.alignment() % modulus != 0 {
        return;
    }
    let floor = buffer.floor();
    let rounded = buffer.size().next_multiple_of(modulus);
    let rounding = rounded - buffer.size();
    for s in sections.sections_of(b) {
        let tally = tallies[*s as usize];
        tallies[*s as usize] = with(tally, floor, rounded, rounding);
    }
}

/// The tally of each section by the modulus, over all buffers.
pub(crate) fn tally_all(
    instance: &Instance,
    sections: &Sections,
    order: &[u32],
    modulus: u64,
    tallies: &mut [Tally],
)
    requires sections { AreSectionsOf instance.now sections.now }
    requires buffers { All IsBuffer instance.now }
    requires few { length instance.now ≤ buffer_limit }
    requires order { IsFalling instance.now order.now }
    requires modulus { IsModulus modulus }
    requires count { length tallies.old ≡ count_of sections.now }
    ensures { AreTallies instance.now sections.now modulus order.now tallies.new }
{
    tallies.fill(Tally::NONE);
    for place in 0..order.len() {
        put(instance, sections, order, place, modulus, tallies);
    }
}
