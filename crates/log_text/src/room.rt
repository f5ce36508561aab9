//! Room in which lists are read.

ghost use Rattle.std.specs.Prelude.{◌≡◌, IfOk};

use crate::RawCite;
use std::alloc::{AllocError, Global};

/// Room in which a list is read, before it is copied to memory of its own length. All cites and
/// all claims of a text are read in one, and differences are carried out in it.
#[derive(Drop)]
pub(crate) struct Room {
    pub(crate) pairs: Vec<(u64, u64)>,
    pub(crate) cites: Vec<(u64, RawCite)>,
}

impl Room {
    /// Room that takes its memory when it is used.
    pub(crate) fn new(alloc: Global) -> Room {
        Room {
            pairs: Vec::new(alloc),
            cites: Vec::new(alloc),
        }
    }
}

/// A list of its own with these items, in memory of just its length.
pub(crate) fn copy_of<T: Copy>(alloc: Global, items: &[T]) -> Result<Vec<T>, AllocError>
    ensures value { IfOk result (λ copy. copy.items ≡ items.now) }
{
    let mut copy = Vec::with_capacity(alloc, items.len())?;
    copy.extend_from_slice(items)?;
    Ok(copy)
}
