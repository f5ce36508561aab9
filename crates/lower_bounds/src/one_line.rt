//! The log of a bound.

ghost use Rattle.std.specs.Prelude.{◌≡◌, ◌+◌, ◌-◌, ◌<◌, ◌≤◌, length, map, IfOk, OnOk};
ghost use Rattle.std.specs.Int.{next_multiple_of};
ghost use Rattle.std.specs.List.{All};
ghost use Rattle.dsa_terms.specs.Bounds.{stack_log};
ghost use Rattle.dsa_terms.specs.Layouts.{IsMultiple};
ghost use Rattle.dsa_terms.specs.Logs.{IsAccepted};
ghost use Rattle.dsa_model.specs.Buffer.{IsBuffer, buffer_limit};
ghost use Rattle.dsa_start_laws.specs.Piles.{counted_buffers};
ghost use Rattle.lower_bounds.specs.Best.{IsBoundOf};
ghost use Rattle.lower_bounds.specs.Stacks.{counts};

use crate::Bound;
use canonical_order::Claim;
use dsa_model::{Buffer, Instance, NoMemory};
use dsa_start_laws::bound_is_low;
use refute_log::{ClosedLog, Line, Log};
use std::alloc::{AllocError, Global};

/// Whether the bound counts the buffer: it is live at the moment, cannot start below the height,
/// and starts at multiples of the modulus alone.
fn counts(buffer: &Buffer, bound: Bound) -> bool
    requires { 1 ≤ bound.modulus }
    ensures { result ≡ counts buffer.now bound.moment bound.height bound.modulus }
{
    buffer.live_at(bound.moment)
        && buffer.floor() >= bound.height
        && buffer.alignment() % bound.modulus == 0
}

/// The buffers that the bound counts, each with this bound for its offset.
fn lifted(
    alloc: Global,
    instance: &Instance,
    bound: Bound,
    height: u64,
) -> Result<Vec<(u32, u64)>, AllocError>
    requires { 1 ≤ bound.modulus }
    ensures value { let b = bound in
        let members = counted_buffers instance.now b.moment b.height b.modulus in
        IfOk result (λ pairs. pairs.items ≡ map (λ c. (c, height)) members) }
    ensures buffers { OnOk result (All IsBuffer instance.now) }
    ensures limit { OnOk result (length instance.now ≤ buffer_limit) }
{
    let mut pairs = Vec::new(alloc);
    for b in 0..instance.len() {
        if counts(instance.buffer(b), bound) {
            pairs.push((b, height))?;
        }
    }
    Ok(pairs)
}

/// The least multiple of the modulus that is above the capacity with the bound's pile on it, which
/// is what stands above the bound's height.
fn line_height(bound: Bound, capacity: u64) -> u64
    requires modulus { 1 ≤ bound.modulus }
    requires height { bound.height ≤ bound.capacity }
    requires multiple { IsMultiple bound.height bound.modulus }
    requires below { capacity < bound.capacity }
    ensures value { let pile = bound.capacity - bound.height in
        result ≡ next_multiple_of (capacity + 1 - pile) bound.modulus }
    ensures limit { result ≤ bound.height }
{
    let pile = bound.capacity - bound.height;
    let least = (capacity + 1).saturating_sub(pile);
    least.next_multiple_of(bound.modulus)
}

impl Bound {
    /// The log of one line that refutes a capacity below the bound: all that the bound counts,
    /// from the least height with which the line is legal. The caller owes that the bound is the
    /// instance's.
    pub fn log(
        &self,
        alloc: Global,
        instance: &Instance,
        capacity: u64,
    ) -> Result<ClosedLog, NoMemory>
        requires bound { IsBoundOf instance.now self.now }
        requires below { capacity < self.now.capacity }
        ensures value { let b = self.now in
            IfOk result (λ log. log ≡ stack_log instance.now b.moment b.height b.modulus capacity) }
        ensures accepted { IfOk result (λ log. IsAccepted instance.now log) }
    {
        bound_is_low();
        let height = line_height(*self, capacity);
        let claim = Claim::from_vec(lifted(alloc, instance, *self, height)?);
        let mut log = Log::new(alloc, instance, capacity);
        let line = Line::Over {
            claim,
            moment: self.moment,
            height,
            modulus: self.modulus,
        };
        let end = log.push_legal(instance, line)?;
        match log.close(instance, end) {
            Ok(closed) => Ok(closed),
            Err(_) => unreachable!(),
        }
    }
}
