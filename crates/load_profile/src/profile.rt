//! The load profile of an instance.

ghost use Rattle.std.specs.Prelude.{◌≡◌, ◌<◌, length, slice_index, IfOk};
ghost use Rattle.lifetime.specs.SectionList.{AreSectionsOf};
ghost use Rattle.load_profile.specs.LoadProfile.{IsPeakOf, loads_of};

use crate::loads::{greatest, loads};
use dsa_model::{Instance, NoMemory};
use lifetime::Sections;
use std::alloc::Global;
use std::marker::Model;

/// The load of each section in bytes, and the peak (LOAD of Buchsbaum, Karloff, Kenyon, Reingold
/// and Thorup).
#[derive(Drop)]
pub struct Profile {
    loads: Vec<u64>,
    peak: Option<(u64, u64)>,
}

impl Model for Profile {
    ghost use Rattle.load_profile.specs.LoadProfile.{LoadProfile};

    ghost Value = { LoadProfile };

    ghost view = { λ p. record { loads = p.loads.items; peak = p.peak } };
}

impl Profile {
    /// The profile of the instance; the caller owes that the sections are the instance's.
    pub fn build(
        alloc: Global,
        instance: &Instance,
        sections: &Sections,
    ) -> Result<Profile, NoMemory>
        requires { AreSectionsOf instance.now sections.now }
        ensures loads { IfOk result (λ made. made.loads ≡ loads_of instance.now sections.now) }
        ensures peak { IfOk result (λ made. IsPeakOf instance.now made.peak) }
    {
        let _buffers = instance.len();
        let loads = loads(alloc, instance, sections)?;
        let peak = greatest(sections, &loads);
        Ok(Profile { loads, peak })
    }

    /// The load of section s in bytes: the sum of the sizes of its members. The caller owes that s
    /// is below the count of the sections.
    pub fn load(&self, s: u32) -> u64
        requires { s < length self.now.loads }
        ensures { result ≡ slice_index self.now.loads s }
    {
        self.loads[s as usize]
    }

    /// The least moment of greatest load with that load in bytes, and none for no buffers.
    pub fn peak(&self) -> Option<(u64, u64)>
        ensures { result ≡ self.now.peak }
    {
        self.peak
    }
}
