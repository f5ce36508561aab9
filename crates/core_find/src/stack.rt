//! Stacks that are over with fewer buffers.

ghost use Rattle.std.specs.Prelude.{◌^◌, ◌<◌, ◌≤◌, [], All, IfNone, IfOk, IfSome, length};
ghost use Rattle.dsa_terms.specs.Claims.{Rises};
ghost use Rattle.dsa_terms.specs.Logs.{IsLegal, Over};
ghost use Rattle.dsa_terms.specs.Parts.{whole};
ghost use Rattle.dsa_model.specs.Limits.{number_limit};
ghost use Rattle.refute_log.specs.Lines.{IsLineKept, line_value};
ghost use Rattle.core_find.specs.Looking.{IsLogByFew, IsStackOver};

use canonical_order::Claim;
use dsa_model::{Fail, Instance, NoMemory};
use refute_log::{ClosedLog, Line, Log};
use std::alloc::Global;

/// The log of an Over line of these buffers, where they stand too high at the moment, from the
/// height on.
fn over_log(
    alloc: Global,
    instance: &Instance,
    capacity: u64,
    few: &[u32],
    moment: u64,
    height: u64,
    modulus: u64,
) -> Result<Option<ClosedLog>, NoMemory>
    requires limit { capacity ≤ number_limit }
    requires rises { Rises few.now }
    requires in_range { All (λ b. b < length instance.now) few.now }
    requires moment_limit { moment < 2 ^ 62 }
    requires height_limit { height ≤ number_limit }
    requires modulus_limit { modulus ≤ number_limit }
    ensures log { IfOk result (λ found. IfSome found
        (IsLogByFew instance.now capacity few.now)) }
    ensures none { let line = Over (whole instance.now few.now) moment height modulus in
        IfOk result (λ found. IfNone found (IsLegal instance.now capacity [] line → ⊥)) }
{
    let _count = instance.len();
    let claim = Claim::whole(alloc, instance, few)?;
    let line = Line::Over {
        claim,
        moment,
        height,
        modulus,
    };
    let mut log = Log::new(alloc, instance, capacity);
    match log.push(instance, line) {
        Ok(_) => {}
        Err(Fail::Fault(_)) => return Ok(None),
        Err(Fail::NoMemory) => return Err(NoMemory),
    }
    match log.close(instance, 0) {
        Ok(closed) => Ok(Some(closed)),
        Err(_) => unreachable!(),
    }
}

/// The log of the line's stack with just these buffers of the instance, each with its lowest for
/// its bound, where it is over at the capacity, in bytes. A Cases line has no stack.
///
/// The caller owes numbers that rise and are below `len`, and a capacity of at most 2^60.
pub(crate) fn stack_log(
    alloc: Global,
    instance: &Instance,
    capacity: u64,
    line: &Line,
    few: &[u32],
) -> Result<Option<ClosedLog>, NoMemory>
    requires limit { capacity ≤ number_limit }
    requires rises { Rises few.now }
    requires in_range { All (λ b. b < length instance.now) few.now }
    requires kept { IsLineKept (line_value line.now) }
    ensures log { IfOk result (λ found. IfSome found
        (IsLogByFew instance.now capacity few.now)) }
    ensures none { let line = line_value line.now in
        IfOk result (λ found. IfNone found (IsStackOver instance.now capacity line few.now → ⊥)) }
{
    match line {
        Line::Over {
            moment,
            height,
            modulus,
            ..
        } => over_log(alloc, instance, capacity, few, *moment, *height, *modulus),
        Line::Cases { .. } => Ok(None),
    }
}
