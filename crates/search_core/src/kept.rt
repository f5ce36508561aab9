//! What is kept of a claim from which the search went down.

ghost use Rattle.std.specs.Prelude.{◌≡◌, IfOk, IfSome, length};
ghost use Rattle.dsa_terms.specs.Claims.{Claim};
ghost use Rattle.canonical_order.specs.Levels.{AreLevels};
ghost use Rattle.branching.specs.Tries.{IsOrderOf, tried_of};

use branching::{Frame, Notes, Task, choices};
use claim_levels::Levels;
use dsa_model::NoMemory;
use std::alloc::Global;

/// What is noted of the choices of a claim, the choice that was taken, and all choices in order.
/// The order may not be made yet, or be dropped again; it is made where the search comes back.
#[derive(Drop)]
pub(crate) struct Kept {
    pub(crate) notes: Notes,
    pub(crate) chosen: u32,
    pub(crate) order: Option<Vec<u32>>,
}

impl Kept {
    /// The frame of the claim of the levels.
    pub(crate) fn frame(
        self,
        alloc: Global,
        task: &Task,
        levels: &Levels,
    ) -> Result<Frame, NoMemory>
        requires { length levels.now ≡ length task.now.instance.now }
        ensures { let I = task.now.instance.now in (l : Claim) → AreLevels I l levels.now →
            IfSome self.order (IsOrderOf I l) →
            IfOk result (λ frame. frame ≡ tried_of I l self.notes) }
    {
        let Kept { notes, order, .. } = self;
        let order = match order {
            Some(order) => order,
            None => choices(alloc, task, levels)?,
        };
        Ok(Frame::of(order, notes))
    }
}
