//! Leaving out sections that say less than a neighbour.

ghost use Rattle.std.specs.Prelude.{◌≡◌, ◌<◌, ◌↔◌, ◌++◌, ◌∷◌, [], IsTrue, List, OnOk, length, map};
ghost use Rattle.std.specs.List.{All};
ghost use Rattle.dsa_terms.specs.Claims.{Rises};
ghost use Rattle.lifetime.specs.SectionList.{Section as SectionTerm, section_with};
ghost use Rattle.lifetime.specs.Stretches.{AreThinned};
ghost use Rattle.lifetime.specs.Thin.{AreAmong, last_of};
ghost use Rattle.lifetime.specs.Views.{section_of};

use crate::section_list::Section;
use std::alloc::{AllocError, Global};
use std::marker::Model;

/// Whether each number of the first list is in the second. Both rise.
fn is_within(part: &[u32], whole: &[u32]) -> bool
    requires part { Rises part.now }
    requires whole { Rises whole.now }
    ensures { IsTrue result ↔ AreAmong part.now whole.now }
{
    if part.len() > whole.len() {
        return false;
    }
    let mut found = 0;
    for b in whole {
        if found == part.len() {
            return true;
        }
        if part[found] < *b {
            return false;
        }
        if part[found] == *b {
            found += 1;
        }
    }
    found == part.len()
}

/// Whether the last section has all of these members.
fn last_has(sections: &[Section], members: &[u32]) -> bool
    requires sections { All (λ (x : SectionTerm). Rises x.members) (map section_of sections.now) }
    requires members { Rises members.now }
    ensures { IsTrue result ↔ ((0 < length sections.now) ×
        AreAmong members.now (last_of (map section_of sections.now)).members) }
{
    match sections.last() {
        Some(last) => is_within(members, &last.members),
        None => false,
    }
}

/// Whether there is a last section and these are all its members, or more.
fn last_is_within(sections: &[Section], members: &[u32]) -> bool
    requires sections { All (λ (x : SectionTerm). Rises x.members) (map section_of sections.now) }
    requires members { Rises members.now }
    ensures { IsTrue result ↔ ((0 < length sections.now) ×
        AreAmong (last_of (map section_of sections.now)).members members.now) }
{
    match sections.last() {
        Some(last) => is_within(&last.members, members),
        None => false,
    }
}

/// Sections in order without those whose members are all among those of a neighbour: of two equal
/// neighbours the earlier stays, and what is left out makes further sections neighbours. Contracts
/// see the list of those that are kept.
#[derive(Drop)]
pub(crate) struct Thinned {
    kept: Vec<Section>,
}

impl Model for Thinned {
    ghost use Rattle.std.specs.Prelude.{List, map};
    ghost use Rattle.std.specs.List.{All};
    ghost use Rattle.dsa_terms.specs.Claims.{Rises};
    ghost use Rattle.lifetime.specs.SectionList.{Section as SectionTerm};
    ghost use Rattle.lifetime.specs.Views.{section_of};

    ghost Value = { List SectionTerm };

    ghost view = { λ t. map section_of t.kept.items };

    ghost invariant = { λ t. All (λ (x : SectionTerm). Rises x.members)
        (map section_of t.kept.items) };
}

impl Thinned {
    /// No sections yet. It takes no memory.
    pub(crate) fn new(alloc: Global) -> Thinned
        ensures { result ≡ [] }
    {
        Thinned {
            kept: Vec::new(alloc),
        }
    }

    /// Puts a section behind the others, with a copy of the members where it is kept.
    pub(crate) fn put(
        &mut self,
        alloc: Global,
        start: u64,
        members: &[u32],
    ) -> Result<(), AllocError>
        requires { Rises members.now }
        ensures { let added = section_with start members.now in OnOk result (
            (sections : List SectionTerm) → AreThinned sections self.old →
            AreThinned (sections ++ added ∷ []) self.new) }
    {
        if last_has(&self.kept, members) {
            return Ok(());
        }
        while last_is_within(&self.kept, members) {
            self.kept.pop();
        }
        let members = Vec::from_slice(alloc, members)?;
        self.kept.push(Section { start, members })?;
        Ok(())
    }

    /// Those that are kept.
    pub(crate) fn into_sections(self) -> Vec<Section>
        ensures { map section_of result.items ≡ self }
    {
        self.kept
    }
}
