//! Eased Over lines, which cover no less.

ghost use Rattle.std.specs.Prelude.{◌≡◌, ◌≤◌, ◌<◌, length, map, sum_by, IfOk};
ghost use Rattle.dsa_terms.specs.Claims.{buffers_of};
ghost use Rattle.dsa_terms.specs.Logs.{IsOver, greatest, rounded, rounding, stacked};
ghost use Rattle.dsa_model.specs.Limits.{number_limit};
ghost use Rattle.canonical_order.specs.Claims.{IsBoundedBy};
ghost use Rattle.canonical_order.specs.Stands.{Stands};
ghost use Rattle.refute_log.specs.Lines.{line_value};
ghost use Rattle.conflicts.specs.Eased.{eased_over};

use canonical_order::Claim;
use dsa_model::{Instance, NoMemory};
use refute_log::{Line, stacks};
use std::alloc::{AllocError, Global};

/// The buffers that an Over line stacks, added up.
#[derive(Drop)]
struct Stack {
    members: Vec<u32>,
    sum: u64,
    most: u64,
}

/// The buffers of the claim that are live at the moment, have a low of at least the height and
/// stand at multiples of the modulus alone, the sum of their sizes rounded up to the modulus, and
/// the greatest single rounding.
fn stack_of(
    alloc: Global,
    instance: &Instance,
    claim: &Claim,
    moment: u64,
    height: u64,
    modulus: u64,
) -> Result<Stack, AllocError>
    requires stands { Stands instance.now claim.now }
    requires bounds { IsBoundedBy number_limit claim.now }
    requires some_modulus { 1 ≤ modulus }
    ensures members { let s = stacked instance.now claim.now moment height modulus in
        IfOk result (λ stack. stack.members.items ≡ buffers_of s) }
    ensures sum { let s = stacked instance.now claim.now moment height modulus in
        IfOk result (λ stack. stack.sum ≡ sum_by (rounded instance.now modulus) s) }
    ensures most { let s = stacked instance.now claim.now moment height modulus in
        IfOk result (λ stack. stack.most ≡ greatest (map (rounding instance.now modulus) s)) }
{
    let mut members = Vec::with_capacity(alloc, claim.pairs().len())?;
    let mut sum = 0;
    let mut most = 0;
    for pair in claim.pairs() {
        let buffer = instance.buffer(pair.0);
        if stacks(buffer, pair.1, moment, height, modulus) {
            let rounded = buffer.size().next_multiple_of(modulus);
            members.push(pair.0)?;
            sum += rounded;
            most = (rounded - buffer.size()).max(most);
        }
    }
    Ok(Stack { members, sum, most })
}

/// The members, each with the bound.
fn from_height(alloc: Global, members: &[u32], height: u64) -> Result<Vec<(u32, u64)>, AllocError>
    ensures { IfOk result (λ pairs. pairs.items ≡ map (λ b. (b, height)) members.now) }
{
    members.iter().map(|b| (*b, height)).collect(alloc)
}

/// The Over line of just the buffers that the given one stacks, from the least height on at which
/// they still reach above the capacity.
pub(crate) fn ease_over(
    alloc: Global,
    instance: &Instance,
    capacity: u64,
    claim: &Claim,
    moment: u64,
    height: u64,
    modulus: u64,
) -> Result<Line, NoMemory>
    requires capacity_limit { capacity ≤ number_limit }
    requires stands { Stands instance.now claim.now }
    requires over { IsOver instance.now capacity moment height modulus claim.now }
    requires bounds { IsBoundedBy number_limit claim.now }
    requires height_limit { height ≤ number_limit }
    requires modulus_limit { modulus ≤ number_limit }
    ensures { IfOk result (λ line.
        line_value line ≡ eased_over instance.now capacity claim.now moment height modulus) }
{
    let stack = stack_of(alloc, instance, claim, moment, height, modulus)?;
    let above = (capacity + 1).saturating_sub(stack.sum - stack.most);
    let height = above.next_multiple_of(modulus);
    let pairs = from_height(alloc, &stack.members, height)?;
    let claim = Claim::from_vec(pairs);
    Ok(Line::Over {
        claim,
        moment,
        height,
        modulus,
    })
}
