//! The moments at which lifetimes and gaps begin or end.

ghost use Rattle.std.specs.Prelude.{◌≡◌, ◌++◌, ◌<◌, IfOk, OnOk, length};
ghost use Rattle.lifetime.specs.Edges.{AreEdges, edges_of};

use dsa_model::{Buffer, Instance};
use std::alloc::{AllocError, Global};

/// Appends the edges of a buffer, each before its number.
fn push_edges(edges: &mut Vec<(u64, u32)>, buffer: &Buffer, b: u32) -> Result<(), AllocError>
    ensures { OnOk result (edges.new.items ≡ edges.old.items ++ edges_of buffer.now b) }
{
    edges.push((buffer.lower(), b))?;
    edges.push((buffer.upper(), b))?;
    for gap in buffer.gaps() {
        edges.push((gap.0, b))?;
        edges.push((gap.1, b))?;
    }
    Ok(())
}

/// All edges in order of time, each before its buffer's number.
pub(crate) fn edges(alloc: Global, instance: &Instance) -> Result<Vec<(u64, u32)>, AllocError>
    ensures { IfOk result (λ edges. AreEdges instance.now edges.items) }
{
    let mut edges = Vec::with_capacity(alloc, 2 * instance.len() as usize)?;
    for b in 0..instance.len() {
        push_edges(&mut edges, instance.buffer(b), b)?;
    }
    edges.sort_unstable_by_key(|edge| edge.0);
    Ok(edges)
}
