//! Which buffers may have a twin at all, whatever the claim.

ghost use Rattle.std.specs.Prelude.{◌≡◌, ◌<◌, true, false, IfOk, length, slice_index_or};
ghost use Rattle.branching.specs.TwinMarks.{AreTwinMarks, HasNoTwin};

use dsa_model::{Instance, NoMemory};
use prune_rules::are_alike;
use std::alloc::Global;
use std::marker::Model;

/// No only where the buffer has no twin, at whatever lows. A twin is like it and comes before it.
fn follows_its_like(instance: &Instance, b: u32) -> bool
    requires { b < length instance.now }
    ensures { result ≡ false → HasNoTwin instance.now b }
{
    for c in 0..b {
        if are_alike(instance.buffer(c), instance.buffer(b)) {
            return true;
        }
    }
    false
}

/// For each buffer of an instance whether it may have a twin: no only where it has none, at
/// whatever lows. Marked are meant to be just those that have a buffer of smaller number with their
/// size, alignment and moments; no clause says so. Contracts see the marks by buffer.
#[derive(Drop)]
pub struct TwinMarks {
    marks: Vec<bool>,
}

impl Model for TwinMarks {
    ghost use Rattle.std.specs.Prelude.{Bool, List};

    ghost Value = { List Bool };

    ghost view = { λ twins. twins.marks.items };
}

impl TwinMarks {
    /// The marks of the instance.
    pub fn of(alloc: Global, instance: &Instance) -> Result<TwinMarks, NoMemory>
        ensures { IfOk result (AreTwinMarks instance.now) }
    {
        let mut marks = Vec::new(alloc);
        for b in 0..instance.len() {
            marks.push(follows_its_like(instance, b))?;
        }
        Ok(TwinMarks { marks })
    }

    /// Whether the buffer may have a twin.
    pub(crate) fn may_have(&self, b: u32) -> bool
        ensures { result ≡ slice_index_or self.now b true }
    {
        match self.marks.get(b as usize) {
            Some(mark) => *mark,
            None => true,
        }
    }
}
