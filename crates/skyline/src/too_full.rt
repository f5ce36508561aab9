//! Sections that are too full.

ghost use Rattle.std.specs.Prelude.{◌≡◌, ◌+◌, ◌<◌, ◌^◌, ◌≤◌, IfNone, IfSome, Some};
ghost use Rattle.std.specs.List.{All};
ghost use Rattle.dsa_model.specs.Limits.{number_limit};
ghost use Rattle.lifetime.specs.SectionList.{AreSectionsOf, count_of};
ghost use Rattle.canonical_order.specs.Levels.{AreLevels};
ghost use Rattle.skyline.specs.Overloads.{FitsFrom, least_up, over, overloaded};
ghost use Rattle.skyline.specs.Skies.{last_claim};

use crate::Skyline;
use crate::ledges::lesser;
use crate::lows_of::least_low;

impl Skyline<'_> {
    /// The start and the height in bytes of the earliest section that is too full: some of its
    /// members are in the last claim, the least low of these is the height, and their sizes on top
    /// of the height pass the capacity. None exactly where there is no such section.
    pub fn overloaded(&self, capacity: u64) -> Option<(u64, u64)>
        ensures value { let l = last_claim self.now.claims in
            result ≡ overloaded self.now.instance self.now.sections l capacity }
        ensures limit { IfSome result (λ found. found.1 < 2 ^ 54) }
        ensures belongs { AreSectionsOf self.now.instance self.now.sections }
    {
        for s in 0..self.sections.count() {
            let found = self.over(s, capacity);
            if found.is_some() {
                return found;
            }
        }
        None
    }

    /// What `overloaded` answers, by the levels of the last claim, which the caller owes: one more
    /// than a buffer's low, and 0 where it is not in the claim. None of them is above `top`. No low
    /// is found anew, and a section is passed by where its load fits even from `top`.
    pub fn overloaded_at(&self, capacity: u64, levels: &[u64], top: u64) -> Option<(u64, u64)>
        requires levels { let l = last_claim self.now.claims in
            AreLevels self.now.instance l levels.now }
        requires limit { All (λ level. level ≤ 2 ^ 55) levels.now }
        requires top { All (λ level. level ≤ top) levels.now }
        requires top_limit { top ≤ 2 ^ 55 }
        ensures value { let l = last_claim self.now.claims in
            result ≡ overloaded self.now.instance self.now.sections l capacity }
        ensures limit { IfSome result (λ found. found.1 < 2 ^ 55) }
        ensures belongs { AreSectionsOf self.now.instance self.now.sections }
    {
        for s in 0..self.sections.count() {
            let found = self.over_at(s, capacity, levels, top);
            if found.is_some() {
                return found;
            }
        }
        None
    }

    /// The least low of the section's members that are in the last claim, where there is one and
    /// the load on top of it passes the capacity.
    fn least_low(&self, s: u32, load: u64, capacity: u64) -> Option<u64>
        requires section { s < count_of self.now.sections }
        requires load { load ≤ number_limit }
        ensures some { let l = last_claim self.now.claims in
            IfSome result (λ h. least_up self.now.instance self.now.sections l s ≡ Some h) }
        ensures over { IfSome result (λ height. capacity < height + load) }
        ensures none { let low = least_up self.now.instance self.now.sections in
            IfNone result (FitsFrom load capacity (low (last_claim self.now.claims) s)) }
        ensures limit { IfSome result (λ height. height < 2 ^ 54) }
    {
        let members = self.sections.members(s);
        let mut least = None;
        for i in 0..members.len() {
            if self.has(members[i]) {
                let low = self.least_offset(members[i]);
                if low + load <= capacity {
                    return None;
                }
                least = Some(lesser(low, least));
            }
        }
        least
    }

    /// The start and the height of the section, where it is too full for the capacity.
    fn over(&self, s: u32, capacity: u64) -> Option<(u64, u64)>
        requires { s < count_of self.now.sections }
        ensures value { let l = last_claim self.now.claims in
            result ≡ over self.now.instance self.now.sections l capacity s }
        ensures limit { IfSome result (λ found. found.1 < 2 ^ 54) }
    {
        match self.least_low(s, self.loads[s as usize], capacity) {
            None => None,
            Some(height) => Some((self.sections.start(s), height)),
        }
    }

    /// The start and the height of the section, where it is too full for the capacity, by the
    /// levels of the last claim, of which none is above the top.
    fn over_at(&self, s: u32, capacity: u64, levels: &[u64], top: u64) -> Option<(u64, u64)>
        requires section { s < count_of self.now.sections }
        requires levels { let l = last_claim self.now.claims in
            AreLevels self.now.instance l levels.now }
        requires limit { All (λ level. level ≤ 2 ^ 55) levels.now }
        requires top { All (λ level. level ≤ top) levels.now }
        requires top_limit { top ≤ 2 ^ 55 }
        ensures value { let l = last_claim self.now.claims in
            result ≡ over self.now.instance self.now.sections l capacity s }
        ensures limit { IfSome result (λ found. found.1 < 2 ^ 55) }
    {
        let load = self.loads[s as usize];
        if load + top <= capacity {
            return None;
        }
        let start = self.sections.start(s);
        let height = least_low(self.sections.members(s), levels, load, capacity)?;
        Some((start, height))
    }
}
