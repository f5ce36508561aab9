//! The columns: the moments at which some buffer begins or ends to be live.

ghost use Rattle.std.specs.Prelude.{◌≡◌, ◌∷◌, ◌++◌, ◌+◌, ◌*◌, ◌≤◌, [], IfOk, OnOk, length};
ghost use Rattle.std.specs.List.{filter};
ghost use Rattle.dsa_model.specs.Buffer.{buffer_limit, gap_limit};
ghost use Rattle.lifetime.specs.Edges.{edge_moments};
ghost use Rattle.lifetime.specs.Runs.{was_live};
ghost use Rattle.layout_picture.specs.Columns.{columns_of, turns_at};

use dsa_model::{Buffer, Instance};
use std::alloc::{AllocError, Global};

/// Whether the buffer is live at the moment before, if there is one.
#[tactic(auto, using(crate::proofs::Turns::was_live_later), unfolding(lifetime::specs::Runs::was_live))]
fn was_live(buffer: &Buffer, t: u64) -> bool
    ensures { result ≡ was_live buffer.now t }
{
    if t == 0 {
        return false;
    }
    buffer.live_at(t - 1)
}

/// Whether the buffer begins or ends to be live at the moment.
#[tactic(auto, unfolding(crate::specs::Columns::turns_at))]
fn turns_at(buffer: &Buffer, t: u64) -> bool
    ensures { result ≡ turns_at t buffer.now }
{
    was_live(buffer, t) != buffer.live_at(t)
}

/// Appends the moment if the buffer begins or ends to be live then.
fn push_turn(moments: &mut Vec<u64>, buffer: &Buffer, t: u64) -> Result<(), AllocError>
    ensures { OnOk result
        (moments.new.items ≡ moments.old.items ++ filter (λ t. turns_at t buffer.now) (t ∷ [])) }
{
    if turns_at(buffer, t) {
        moments.push(t)?;
    }
    Ok(())
}

/// Appends the ends of the buffer's lifetime and of its gaps at which it begins or ends to be
/// live.
fn push_turns(moments: &mut Vec<u64>, buffer: &Buffer) -> Result<(), AllocError>
    ensures { OnOk result (moments.new.items
        ≡ moments.old.items ++ filter (λ t. turns_at t buffer.now) (edge_moments buffer.now)) }
{
    push_turn(moments, buffer, buffer.lower())?;
    push_turn(moments, buffer, buffer.upper())?;
    for gap in buffer.gaps() {
        push_turn(moments, buffer, gap.0)?;
        push_turn(moments, buffer, gap.1)?;
    }
    Ok(())
}

/// The moments at which some buffer begins or ends to be live, rising.
pub(crate) fn columns(alloc: Global, instance: &Instance) -> Result<Vec<u64>, AllocError>
    ensures value { IfOk result (λ moments. moments.items ≡ columns_of instance.now) }
    ensures few { IfOk result (λ moments.
        length moments.items ≤ (2 + 2 * gap_limit) * buffer_limit) }
{
    let mut moments = Vec::with_capacity(alloc, 2 * instance.len() as usize)?;
    for b in 0..instance.len() {
        push_turns(&mut moments, instance.buffer(b))?;
    }
    moments.sort_unstable();
    moments.dedup();
    Ok(moments)
}
