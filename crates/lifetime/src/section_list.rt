//! A list of sections.

ghost use Rattle.std.specs.Prelude.{◌≡◌, ◌<◌, ◌^◌, length};
ghost use Rattle.lifetime.specs.SectionList.{AreKeptSections, count_of, members_of, sections_of, start_of};
ghost use Rattle.lifetime.specs.Views.{list_of};

use std::marker::Model;

/// A moment with the buffers that are live then.
#[derive(Drop)]
pub(crate) struct Section {
    pub(crate) start: u64,
    pub(crate) members: Vec<u32>,
}

/// Moments in order of time that stand for all moments, each with the buffers that are live then,
/// and for each buffer the places of its sections.
#[derive(Drop)]
pub struct Sections {
    sections: Vec<Section>,
    of_buffers: Vec<Vec<u32>>,
}

impl Model for Sections {
    ghost use Rattle.lifetime.specs.SectionList.{AreKeptSections, SectionList};
    ghost use Rattle.lifetime.specs.Views.{list_of};

    ghost Value = { SectionList };

    ghost view = { λ s. list_of s.sections.items s.of_buffers.items };

    ghost invariant = { λ s. AreKeptSections (list_of s.sections.items s.of_buffers.items) };
}

impl Sections {
    /// These sections, and these places of each buffer's.
    pub(crate) fn of_lists(sections: Vec<Section>, of_buffers: Vec<Vec<u32>>) -> Sections
        requires { AreKeptSections (list_of sections.items of_buffers.items) }
        ensures { result ≡ list_of sections.items of_buffers.items }
    {
        Sections {
            sections,
            of_buffers,
        }
    }

    /// How many sections there are.
    pub fn count(&self) -> u32
        ensures value { result ≡ count_of self.now }
        ensures limit { count_of self.now < 2 ^ 32 }
        ensures kept { AreKeptSections self.now }
    {
        self.sections.len() as u32
    }

    /// The moment of section s, which rises with s; the caller owes that s is below the count.
    pub fn start(&self, s: u32) -> u64
        requires { s < count_of self.now }
        ensures value { result ≡ start_of self.now s }
        ensures kept { AreKeptSections self.now }
    {
        self.sections[s as usize].start
    }

    /// The buffers of section s, at least one, by rising number; the caller owes that s is below
    /// the count.
    pub fn members(&self, s: u32) -> &[u32]
        requires { s < count_of self.now }
        ensures value { result.now ≡ members_of self.now s }
        ensures kept { AreKeptSections self.now }
    {
        self.sections[s as usize].members.as_slice()
    }

    /// The sections of buffer b, by rising place; the caller owes that b is below the count of the
    /// instance's buffers.
    pub fn sections_of(&self, b: u32) -> &[u32]
        requires { b < length self.now.of_buffers }
        ensures value { result.now ≡ sections_of self.now b }
        ensures kept { AreKeptSections self.now }
    {
        self.of_buffers[b as usize].as_slice()
    }
}
