//! The levels of a child in the making.

ghost use Rattle.std.specs.Prelude.{◌≡◌, ◌∷◌, ◌++◌, ◌<◌, [], OnErr, OnOk, length, max, slice_set};
ghost use Rattle.dsa_terms.specs.Claims.{Entry, IsIn};
ghost use Rattle.claim_levels.specs.Trails.{undone};

use dsa_model::NoMemory;

/// The levels of a claim, of which some are those of a child by now; a number that none of them is
/// above; and the buffers whose levels were written, each with its level in the claim.
#[derive(Drop)]
pub(crate) struct Raising {
    pub(crate) numbers: Vec<u64>,
    pub(crate) top: u64,
    pub(crate) changes: Vec<(u32, u64)>,
}

impl Raising {
    /// Notes the level of the buffer in the claim, and writes that in the child in its place.
    pub(crate) fn put(&mut self, b: u32, before: u64, level: u64) -> Result<(), NoMemory>
        requires { b < length self.old.numbers.items }
        ensures numbers { OnOk result (self.new.numbers.items
            ≡ slice_set self.old.numbers.items b level) }
        ensures top { OnOk result (self.new.top ≡ max self.old.top level) }
        ensures changes { OnOk result (self.new.changes.items
            ≡ self.old.changes.items ++ (b, before) ∷ []) }
        ensures unchanged { OnErr result ((self.new.numbers.items ≡ self.old.numbers.items)
            × (self.new.top ≡ self.old.top) × (self.new.changes.items ≡ self.old.changes.items)) }
    {
        self.changes.push((b, before))?;
        self.numbers[b as usize] = level;
        self.top = self.top.max(level);
        Ok(())
    }
}

/// Puts these levels back, each in its place.
pub(crate) fn put_back(levels: &mut [u64], changes: &[(u32, u64)])
    requires { (e : Entry) → IsIn e changes.now → e.0 < length levels.old }
    ensures { levels.new ≡ undone changes.now levels.old }
{
    for &(b, level) in changes {
        levels[b as usize] = level;
    }
}
