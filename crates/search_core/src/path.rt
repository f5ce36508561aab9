//! Where a search is.

ghost use Rattle.std.specs.Prelude.{◌≡◌, ◌<◌, ◌∷◌, ◌++◌, [], length, IfNone, IfSome, OnOk};
ghost use Rattle.dsa_terms.specs.Claims.{child};
ghost use Rattle.canonical_order.specs.Claims.{HasBuffer, entry_of};
ghost use Rattle.canonical_order.specs.Stands.{Stands};
ghost use Rattle.branching.specs.Tries.{tried_of};
ghost use Rattle.search_core.specs.Ways.{IsBackBy, IsKeptAt};
ghost use Rattle.skyline.specs.Skies.{last_claim};

use crate::kept::Kept;
use canonical_order::Lows;
use dsa_model::{Instance, NoMemory};
use skyline::Skyline;
use std::alloc::Global;
use std::marker::Model;

/// Of so many of the last claims above the one that the search is at the order is kept, however
/// many buffers there are.
const NEAR: usize = 4;

/// And of as many more as this number has squares of the count of buffers.
const NEAR_SQUARES: u32 = 1 << 28;

/// How many of the last claims of the instance have their order kept. Where there are many buffers
/// these are few.
fn near_claims(instance: &Instance) -> usize
    ensures { 0 < result }
{
    let count = instance.len() + 1;
    NEAR + (NEAR_SQUARES / count / count) as usize
}

/// The claims down to the one that the search is at, the last one, and what is kept of each claim
/// above it. The order of claims far above is dropped.
#[derive(Drop)]
pub(crate) struct Path<'a> {
    sky: Skyline<'a>,
    kept: Vec<Kept>,
}

impl<'a> Model for Path<'a> {
    ghost use Rattle.search_core.specs.Ways.{AreKeptAlong, Way, notes_of, tries_of};

    ghost Value = { Way };

    ghost view = { λ p. record {
      sky = p.sky;
      frames = tries_of p.sky.instance p.sky.claims (notes_of p.kept.items);
    } };

    ghost invariant = { λ p. AreKeptAlong p.sky.instance p.sky.claims p.kept.items };
}

impl<'a> Path<'a> {
    /// The claim of the skyline alone.
    pub(crate) fn new(alloc: Global, sky: Skyline<'a>) -> Path<'a>
        requires { length sky.claims ≡ 1 }
        ensures { result ≡ record { sky = sky.entry; frames = [] } }
    {
        let kept = Vec::new(alloc);
        Path { sky, kept }
    }

    /// The claims.
    pub(crate) fn sky(&self) -> &Skyline<'a>
        ensures { result.now ≡ self.now.sky }
    {
        &self.sky
    }

    /// The instance.
    pub(crate) fn instance(&self) -> &Instance
        ensures value { result.now ≡ self.now.sky.instance }
        ensures stands { Stands result.now (last_claim self.now.sky.claims) }
    {
        self.sky.instance()
    }

    /// Drops the order of the claim that is far above by one more claim.
    fn forget(&mut self)
        ensures { self.new ≡ self.old }
    {
        let near = near_claims(self.instance());
        if self.kept.len() >= near {
            let far = self.kept.len() - near;
            self.kept[far].order = None;
        }
    }

    /// Goes down to the child by the choice that is kept.
    pub(crate) fn go_down(&mut self, kept: Kept) -> Result<(), NoMemory>
        requires has { HasBuffer (last_claim self.old.sky.claims) kept.chosen }
        requires kept { IsKeptAt self.old.sky.instance (last_claim self.old.sky.claims) kept }
        ensures instance { OnOk result (self.new.sky.instance ≡ self.old.sky.instance) }
        ensures claims { let I = self.old.sky.instance in let l = last_claim self.old.sky.claims in
            let e = entry_of l kept.chosen in
            OnOk result (self.new.sky.claims ≡ self.old.sky.claims ++ child I l e ∷ []) }
        ensures frames { let I = self.old.sky.instance in let l = last_claim self.old.sky.claims in
            OnOk result (self.new.frames ≡ self.old.frames ++ tried_of I l kept.notes ∷ []) }
    {
        self.forget();
        let chosen = kept.chosen;
        self.kept.push(kept)?;
        self.sky.push(chosen);
        Ok(())
    }

    /// Goes back to the claim above the one that the search is at, if there is one, and gives what
    /// was kept of it.
    pub(crate) fn go_back(&mut self) -> Option<Kept>
        ensures some { IfSome result (IsBackBy self.old self.new) }
        ensures none { IfNone result ((self.old.frames ≡ []) × (self.new ≡ self.old)) }
    {
        match self.kept.pop() {
            Some(kept) => {
                self.sky.pop();
                Some(kept)
            }
            None => None,
        }
    }
}
