//! In which columns a buffer is live.

ghost use Rattle.std.specs.Prelude.{◌≡◌, IfOk, map};
ghost use Rattle.dsa_terms.specs.Buffers.{is_live};

use dsa_model::Buffer;
use std::alloc::{AllocError, Global};

/// For each column whether the buffer is live at its moment.
pub(crate) fn live_columns(
    alloc: Global,
    buffer: &Buffer,
    columns: &[u64],
) -> Result<Vec<bool>, AllocError>
    ensures { IfOk result (λ flags. flags.items ≡ map (is_live buffer.now) columns.now) }
{
    columns.iter().map(|t| buffer.live_at(*t)).collect(alloc)
}
