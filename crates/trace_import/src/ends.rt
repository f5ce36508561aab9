//! How long each allocation lasts.

ghost use Rattle.std.specs.Prelude.{◌≡◌, ◌≤◌, IfOk, length, map};
ghost use Rattle.dsa_model.specs.Limits.{file_limit};
ghost use Rattle.trace_import.specs.Found.{ends_from};
ghost use Rattle.trace_import.specs.Kept.{line_value};

use crate::line::Line;
use dsa_model::NoMemory;
use indexmap::IndexMap;
use std::alloc::Global;

/// For each line the first one after it that frees its identifier, or else the count of lines.
pub(crate) fn ends(alloc: Global, lines: &[Line]) -> Result<Vec<u32>, NoMemory>
    requires { length lines.now ≤ file_limit }
    ensures { IfOk result (λ ends. ends.items ≡ ends_from 0 (map line_value lines.now)) }
{
    let count = lines.len() as u32;
    let mut frees: IndexMap<&[u8], u32> = IndexMap::new(alloc);
    let mut ends = Vec::new(alloc);
    for place in (0..lines.len()).rev() {
        let line = &lines[place];
        let end = frees.get(line.id()).copied().unwrap_or(count);
        ends.push(end)?;
        if line.is_free() {
            frees.insert(line.id(), place as u32)?;
        }
    }
    ends.reverse();
    Ok(ends)
}
