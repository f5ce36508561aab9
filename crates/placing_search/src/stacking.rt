//! Layouts that are stacked from below.

ghost use Rattle.std.specs.Prelude.{◌≡◌, ◌+◌, ◌/◌, ◌^◌, ◌<◌, ◌≤◌, IfOk, IfSome, length};
ghost use Rattle.first_fit.specs.Rules.{IsOrderOf};
ghost use Rattle.placing_search.specs.Meetings.{AreMeetingsOf};
ghost use Rattle.placing_search.specs.Sides.{AreSidesOf};
ghost use Rattle.placing_search.specs.Stacks.{IsStackOf};

use crate::meetings::Meetings;
use crate::sides::Sides;
use dsa_model::{Instance, NoMemory};
use std::alloc::Global;

/// A height that no layout of sound buffers needs, in bytes.
pub(crate) const HIGHEST: u64 = 1 << 60;

/// What stands for the offset of a buffer that is stacked: above all that are not, in bytes.
const STACKED: u64 = 1 << 61;

/// All buffers in the order in which they were stacked, and where they end.
#[derive(Drop)]
pub(crate) struct Stack {
    /// The buffers as they were stacked.
    pub(crate) order: Vec<u32>,
    /// Where each ends, by its place in the order, in bytes.
    pub(crate) ends: Vec<u64>,
    /// For each buffer that is not stacked yet, by number, the least offset at which it does not
    /// meet those that are; `STACKED` for one that is.
    lows: Vec<u64>,
    /// A bit for each buffer, by number; that of one that is stacked is not set.
    unstacked: Vec<u64>,
    /// Where the buffer that was stacked last in each column ends, in bytes.
    tops: Vec<u64>,
    /// The sum of the sizes of the buffers without gaps that are still to be stacked in each
    /// column, in bytes.
    loads: Vec<u64>,
    /// Whether of the buffers that can start lowest one with fewer open sides comes first.
    snug: bool,
}

impl Stack {
    /// The buffers in the order, none of them stacked.
    pub(crate) fn of(
        alloc: Global,
        instance: &Instance,
        order: &[u32],
        snug: bool,
    ) -> Result<Stack, NoMemory>
        requires { IsOrderOf instance.now order.now }
        ensures { IfOk result (IsStackOf instance.now) }
    {
        Ok(Stack {
            order: order.to_vec(alloc)?,
            ends: vec![in alloc; 0u64; instance.len() as usize]?,
            lows: vec![in alloc; 0u64; instance.len() as usize]?,
            unstacked: vec![in alloc; 0u64; instance.len() as usize / 64 + 1]?,
            tops: vec![in alloc; 0u64; 2 * instance.len() as usize + 2]?,
            loads: vec![in alloc; 0u64; 2 * instance.len() as usize + 2]?,
            snug,
        })
    }

    /// Takes all buffers off.
    fn clear(&mut self, instance: &Instance, sides: &Sides)
        requires stack { IsStackOf instance.now self.old }
        requires sides { AreSidesOf instance.now sides.now }
        ensures { IsStackOf instance.now self.new }
    {
        for b in 0..instance.len() {
            self.lows[b as usize] = instance.buffer(b).floor();
        }
        self.unstacked.fill(u64::MAX);
        self.tops.copy_from_slice(&sides.bare);
        self.loads.copy_from_slice(&sides.loads);
    }

    /// The buffer is stacked: its low rises no more.
    fn mark(&mut self, instance: &Instance, b: u32)
        requires stack { IsStackOf instance.now self.old }
        requires in_range { b < length instance.now }
        ensures { IsStackOf instance.now self.new }
    {
        let _count = instance.len();
        self.unstacked[b as usize / 64] &= !(1 << (b % 64));
    }

    /// How many sides of the buffer are open where it can start now, in a snug stack: those where
    /// nothing that is stacked reaches higher, and where time goes on.
    fn open_sides(&self, instance: &Instance, sides: &Sides, b: u32) -> u32
        requires stack { IsStackOf instance.now self.now }
        requires sides { AreSidesOf instance.now sides.now }
        requires in_range { b < length instance.now }
    {
        if !self.snug {
            return 0;
        }
        let low = self.lows[b as usize];
        let mut open = 0;
        if self.tops[sides.left[b as usize]] <= low {
            open += 1;
        }
        if self.tops[sides.right[b as usize]] <= low {
            open += 1;
        }
        open
    }

    /// The columns of the buffer are as high as its end, in a snug stack: no other asks for them.
    fn top_up(&mut self, instance: &Instance, sides: &Sides, b: u32, end: u64)
        requires stack { IsStackOf instance.now self.old }
        requires sides { AreSidesOf instance.now sides.now }
        requires in_range { b < length instance.now }
        ensures { IsStackOf instance.now self.new }
    {
        let _count = instance.len();
        if !self.snug {
            return;
        }
        for column in sides.left[b as usize] + 1..sides.right[b as usize] {
            self.tops[column] = end;
        }
    }

    /// Takes the buffer off the loads of its columns. Tells whether what is left of each is at most
    /// `room`, in bytes: the buffers that are still to come there all go above this one.
    fn take_off(&mut self, instance: &Instance, sides: &Sides, b: u32, room: u64) -> bool
        requires stack { IsStackOf instance.now self.old }
        requires sides { AreSidesOf instance.now sides.now }
        requires in_range { b < length instance.now }
        ensures { IsStackOf instance.now self.new }
    {
        let buffer = instance.buffer(b);
        if !buffer.gaps().is_empty() {
            return true;
        }
        let size = buffer.size();
        let mut most = 0;
        for column in sides.left[b as usize] + 1..sides.right[b as usize] {
            let left = self.loads[column].saturating_sub(size);
            self.loads[column] = left;
            most = left.max(most);
        }
        most <= room
    }

    /// The place from `from` on of the buffer that can start lowest, of equals the one with fewest
    /// open sides, and of these the one of the first place in the ranking.
    fn lowest_from(
        &self,
        instance: &Instance,
        sides: &Sides,
        places: &[usize],
        from: usize,
    ) -> usize
        requires stack { IsStackOf instance.now self.now }
        requires sides { AreSidesOf instance.now sides.now }
        requires places { length places.now ≡ length instance.now }
        requires from { from < length instance.now }
        ensures { result < length instance.now }
    {
        let mut lowest = from;
        let mut first = self.order[from] as usize;
        let mut least = self.lows[first];
        let mut fewest = self.open_sides(instance, sides, self.order[from]);
        for place in from + 1..self.order.len() {
            let b = self.order[place] as usize;
            let low = self.lows[b];
            if low > least {
                continue;
            }
            let open = self.open_sides(instance, sides, self.order[place]);
            if low < least || open < fewest || open == fewest && places[b] < places[first] {
                lowest = place;
                first = b;
                least = low;
                fewest = open;
            }
        }
        lowest
    }

    /// Raises those buffers that are not stacked and whose bits are set in this word to the end of
    /// one that they meet; its lowest bit is that of buffer `first`. Tells whether none of them
    /// would end above the limit.
    fn raise_some(
        &mut self,
        instance: &Instance,
        word: u64,
        first: u32,
        end: u64,
        limit: u64,
    ) -> bool
        requires stack { IsStackOf instance.now self.old }
        requires first { first ≤ 2 ^ 20 }
        requires end { end ≤ 2 ^ 60 }
        ensures { IsStackOf instance.now self.new }
    {
        let mut rest = word;
        for _ in 0..word.count_ones() {
            let c = first + rest.trailing_zeros();
            rest &= rest.wrapping_sub(1);
            if c < instance.len() && self.lows[c as usize] < end {
                let buffer = instance.buffer(c);
                let low = if buffer.alignment() == 1 {
                    end
                } else {
                    buffer.least_offset(end)
                };
                if low + buffer.size() > limit {
                    return false;
                }
                self.lows[c as usize] = low;
            }
        }
        true
    }

    /// Raises those buffers that are not stacked and whose bits are set in this row to the end of
    /// one that they meet. Tells whether none of them would end above the limit.
    fn raise(&mut self, instance: &Instance, row: &[u64], end: u64, limit: u64) -> bool
        requires stack { IsStackOf instance.now self.old }
        requires row { length row.now ≡ length instance.now / 64 + 1 }
        requires end { end ≤ 2 ^ 60 }
        ensures { IsStackOf instance.now self.new }
    {
        let _count = instance.len();
        for (place, &word) in row.iter().enumerate() {
            let word = word & self.unstacked[place];
            if !self.raise_some(instance, word, 64 * place as u32, end, limit) {
                return false;
            }
        }
        true
    }

    /// Stacks all buffers anew: of those that are left always the one that can start lowest goes
    /// where it can start, in a snug stack of equals one with fewest open sides, and of equals the
    /// one of the first place in the ranking. The lowest gap is filled first in the strip packing
    /// of Burke, Kendall and Whitwell too; here the places in time are given. Tells the height, in
    /// bytes; none where it would be above the limit, as soon as a buffer would end there, or those
    /// that are still to come in a column.
    ///
    /// First-fit in the order in which they were stacked puts no buffer higher.
    ///
    /// The caller owes a row and a place for each buffer, and a limit of at most 2^60.
    pub(crate) fn restack(
        &mut self,
        instance: &Instance,
        meetings: &Meetings,
        places: &[usize],
        limit: u64,
    ) -> Option<u64>
        requires stack { IsStackOf instance.now self.old }
        requires meetings { AreMeetingsOf instance.now meetings.now }
        requires places { length places.now ≡ length instance.now }
        requires limit { limit ≤ 2 ^ 60 }
        ensures stack { IsStackOf instance.now self.new }
        ensures limit { IfSome result (λ height. height ≤ limit) }
    {
        self.clear(instance, &meetings.sides);
        let mut height = 0;
        for k in 0..self.order.len() {
            let lowest = self.lowest_from(instance, &meetings.sides, places, k);
            let b = self.order[lowest];
            let end = self.lows[b as usize] + instance.buffer(b).size();
            if end > limit {
                return None;
            }
            height = end.max(height);
            self.order.swap(k, lowest);
            self.ends[k] = end;
            self.lows[b as usize] = STACKED;
            self.top_up(instance, &meetings.sides, b, end);
            self.mark(instance, b);
            if !self.take_off(instance, &meetings.sides, b, limit - end) {
                return None;
            }
            if !self.raise(instance, meetings.with(instance, b), end, limit) {
                return None;
            }
        }
        Some(height)
    }
}
