//! The skyline.

ghost use Rattle.std.specs.Prelude.{◌≡◌, ℕ, ◌+◌, ◌<◌, ◌^◌, ◌∷◌, ◌++◌, ◌↔◌, [], ◌≤◌, IfNone, IfOk, IfSome, IsTrue, Some, length};
ghost use Rattle.std.specs.List.{All};
ghost use Rattle.dsa_terms.specs.Claims.{Rises, buffers_of, child, up};
ghost use Rattle.lifetime.specs.SectionList.{AreSectionsOf, count_of};
ghost use Rattle.canonical_order.specs.Claims.{HasBuffer, IsBoundedBy, entry_of};
ghost use Rattle.canonical_order.specs.Levels.{AreLevels};
ghost use Rattle.canonical_order.specs.Stands.{Stands};
ghost use Rattle.skyline.specs.Skies.{AreLow, at_first, first_claim, last_claim};

use crate::ledges::ledge_above;
use crate::rooms::{first_loads, make_rows, mark};
use crate::rows::{burden, highest, lighten, raise, restore, save};
use dsa_model::{Instance, NoMemory};
use lifetime::Sections;
use std::alloc::Global;
use std::marker::Model;

/// A list of claims, of which the last one is at hand: the whole claim of some members, and then
/// the child of the one before by each buffer that was pushed. A buffer that was pushed stands at
/// its low, and its top is kept as the height of its sections. A push or a pop takes no memory, and
/// its cost is in the sections of its buffer.
#[derive(Drop)]
pub struct Skyline<'a> {
    instance: &'a Instance,
    pub(crate) sections: &'a Sections,
    members: Vec<u32>,
    depth: usize,
    stack: Vec<u32>,
    ledges: Vec<u64>,
    heights: Vec<u64>,
    saved: Vec<Vec<u64>>,
    free: Vec<bool>,
    pub(crate) loads: Vec<u64>,
}

impl<'a> Model for Skyline<'a> {
    ghost use Rattle.std.specs.Prelude.{map, reverse, take};
    ghost use Rattle.dsa_terms.specs.Parts.{whole};
    ghost use Rattle.dsa_model.specs.Lists.{items_of};
    ghost use Rattle.skyline.specs.Carried.{claims_of};
    ghost use Rattle.skyline.specs.Loads.{IsLoaded};
    ghost use Rattle.skyline.specs.Skies.{Sky};

    ghost Value = { Sky };

    ghost view = { λ s. record {
      instance = s.instance.now;
      sections = s.sections.now;
      claims = claims_of s.instance.now (whole s.instance.now s.members.items)
          (reverse (take s.depth s.stack.items));
    } };

    ghost invariant = { λ s. IsLoaded s.instance.now s.sections.now s.members.items s.depth
        s.stack.items s.ledges.items s.heights.items (map items_of s.saved.items) s.free.items
        s.loads.items };
}

impl<'a> Skyline<'a> {
    /// The whole claim of the members alone, in which the bound of each is its lowest, with the
    /// room for all later calls. The caller owes the sections of the instance, and members that
    /// rise and are in range.
    pub fn new(
        alloc: Global,
        instance: &'a Instance,
        sections: &'a Sections,
        members: &[u32],
    ) -> Result<Skyline<'a>, NoMemory>
        requires sections { AreSectionsOf instance.now sections.now }
        requires rises { Rises members.now }
        requires in_range { All (λ b. b < length instance.now) members.now }
        ensures { IfOk result (λ sky. sky ≡ at_first instance.now sections.now members.now) }
    {
        let count = instance.len();
        let heights = vec![in alloc; 0u64; sections.count() as usize]?;
        let stack = vec![in alloc; 0u32; members.len()]?;
        let ledges = vec![in alloc; 0u64; members.len()]?;
        let free = mark(alloc, count as usize, members)?;
        let saved = make_rows(alloc, sections, &free)?;
        let loads = first_loads(alloc, instance, sections, &free)?;
        let members = members.to_vec(alloc)?;
        Ok(Skyline {
            instance,
            sections,
            members,
            depth: 0,
            stack,
            ledges,
            heights,
            saved,
            free,
            loads,
        })
    }

    /// How many buffers were pushed and not popped: the number of claims less one.
    pub fn depth(&self) -> u32
        ensures value { result + 1 ≡ length self.now.claims }
        ensures low { AreLow self.now.claims }
    {
        self.depth as u32
    }

    /// Appends the child of the last claim by the buffer, which is in it, and gives the buffer's
    /// low in bytes, where it stands from now on.
    pub fn push(&mut self, b: u32) -> u64
        requires { HasBuffer (last_claim self.old.claims) b }
        ensures instance { self.new.instance ≡ self.old.instance }
        ensures sections { self.new.sections ≡ self.old.sections }
        ensures claims { let l = last_claim self.old.claims in
            self.new.claims ≡ self.old.claims ++ child self.old.instance l (entry_of l b) ∷ [] }
        ensures value { let l = last_claim self.old.claims in
            result ≡ up self.old.instance (entry_of l b) }
        ensures limit { result < 2 ^ 54 }
        ensures low { AreLow self.new.claims }
    {
        let offset = self.least_offset(b);
        let size = self.instance.buffer(b).size();
        let sections = self.sections.sections_of(b);
        let row = &mut self.saved[b as usize];
        save(row, &self.heights, sections);
        raise(&mut self.heights, sections, offset + size);
        lighten(&mut self.loads, sections, size);
        self.stack[self.depth] = b;
        self.ledges[self.depth] = offset;
        self.free[b as usize] = false;
        self.depth += 1;
        offset
    }

    /// Takes the last claim off the list, so that all is as before the push that made it; the
    /// caller owes a depth above 0.
    pub fn pop(&mut self)
        requires { 1 < length self.old.claims }
        ensures instance { self.new.instance ≡ self.old.instance }
        ensures sections { self.new.sections ≡ self.old.sections }
        ensures claims { self.old.claims ≡ self.new.claims ++ last_claim self.old.claims ∷ [] }
        ensures low { AreLow self.new.claims }
    {
        self.depth -= 1;
        let b = self.stack[self.depth];
        let sections = self.sections.sections_of(b);
        restore(&mut self.heights, sections, &self.saved[b as usize]);
        let size = self.instance.buffer(b).size();
        burden(&mut self.loads, sections, size);
        self.free[b as usize] = true;
    }

    /// The sections of the instance. That no bound of a child of the last claim is above 2^54
    /// stands here, for those who go down to one by the sections.
    pub fn sections(&self) -> &Sections
        ensures value { result.now ≡ self.now.sections }
        ensures belongs { AreSectionsOf self.now.instance self.now.sections }
        ensures below { (b : ℕ) → HasBuffer (last_claim self.now.claims) b →
            let l = last_claim self.now.claims in
            IsBoundedBy (2 ^ 54) (child self.now.instance l (entry_of l b)) }
    {
        self.sections
    }

    /// The buffers of the first claim, in rising order.
    pub fn members(&self) -> &[u32]
        ensures value { result.now ≡ buffers_of (first_claim self.now.claims) }
        ensures in_range { All (λ b. b < length self.now.instance) result.now }
    {
        &self.members
    }

    /// The instance.
    pub(crate) fn lent(&self) -> &Instance
        ensures value { result.now ≡ self.now.instance }
        ensures stands { Stands result.now (last_claim self.now.claims) }
    {
        self.instance
    }

    /// Whether the buffer is in the last claim.
    pub(crate) fn has(&self, b: u32) -> bool
        ensures value { IsTrue result ↔ HasBuffer (last_claim self.now.claims) b }
        ensures stands { Stands self.now.instance (last_claim self.now.claims) }
    {
        if b as usize >= self.free.len() {
            return false;
        }
        self.free[b as usize]
    }

    /// The low of the buffer: the least multiple of its alignment at or above its lowest, the
    /// heights of its sections and the ledge.
    pub(crate) fn least_offset(&self, b: u32) -> u64
        requires { HasBuffer (last_claim self.now.claims) b }
        ensures value { result ≡ up self.now.instance (entry_of (last_claim self.now.claims) b) }
        ensures limit { result < 2 ^ 54 }
        ensures stands { Stands self.now.instance (last_claim self.now.claims) }
    {
        let buffer = self.instance.buffer(b);
        let top = highest(&self.heights, self.sections.sections_of(b));
        let ledge = ledge_above(&self.stack, &self.ledges, self.depth, b);
        let bound = top.max(ledge).max(buffer.lowest());
        buffer.least_offset(bound)
    }
}
