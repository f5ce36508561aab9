//! The lines that the search appends to its log.

ghost use Rattle.std.specs.Prelude.{◌≡◌, ◌+◌, ◌-◌, ◌^◌, ◌<◌, [], ◌∷◌, List, length, IfOk, OnOk};
ghost use Rattle.dsa_terms.specs.Buffers.{IsLive, buffer as buffer_at};
ghost use Rattle.dsa_terms.specs.Claims.{Claim as ClaimTerm, Covers};
ghost use Rattle.dsa_terms.specs.Logs.{IsLegal, Line as LineTerm, claim_of};
ghost use Rattle.refute_log.specs.Lines.{IsWithin, line_value};
ghost use Rattle.line_index.specs.Covered.{IsCoveredBy, NoneCovers};
ghost use Rattle.branching.specs.Logs.{Extends, IsSearchLog};

use crate::task::Task;
use canonical_order::Claim;
use conflicts::{Lemmas, ease};
use dsa_model::{Buffer, NoMemory};
use refute_log::Line;
use std::alloc::Global;

/// The first moment at which the buffer is live.
fn first_moment(buffer: &Buffer) -> u64
    ensures live { IsLive buffer.now result }
    ensures limit { result < 2 ^ 62 }
{
    let _size = buffer.size();
    buffer.first_common(buffer).unwrap()
}

/// The Over line of the buffer alone, which would end above the capacity at the line's height.
pub(crate) fn tall_line(alloc: Global, task: &Task, b: u32) -> Result<Line, NoMemory>
    requires { b < length task.now.instance.now }
    ensures claim { let size = (buffer_at task.now.instance.now b).size in
        IfOk result (λ line. claim_of (line_value line) ≡ (b, task.now.capacity + 1 - size) ∷ []) }
    ensures legal { IfOk result (λ line. (earlier : List LineTerm) →
        IsLegal task.now.instance.now task.now.capacity earlier (line_value line)) }
    ensures within { IfOk result (λ line. IsWithin (line_value line)) }
{
    let buffer = task.instance.buffer(b);
    let height = (task.capacity + 1).saturating_sub(buffer.size());
    let moment = first_moment(buffer);
    let pairs = [(b, height)];
    let claim = Claim::from_pairs(alloc, &pairs)?;
    Ok(Line::Over {
        claim,
        moment,
        height,
        modulus: 1,
    })
}

/// Appends a line that is legal and whose claim no line covers, eased, and gives its number.
pub fn append(alloc: Global, task: &Task, log: &mut Lemmas, line: Line) -> Result<u64, NoMemory>
    requires log { IsSearchLog task.now.instance.now task.now.capacity log.old }
    requires legal { let I = task.now.instance.now in
        IsLegal I task.now.capacity log.old.lines (line_value line) }
    requires within { IsWithin (line_value line) }
    requires fresh { NoneCovers task.now.instance.now log.old.lines (claim_of (line_value line)) }
    ensures log { OnOk result (IsSearchLog task.now.instance.now task.now.capacity log.new) }
    ensures grown { (l : ClaimTerm) → Covers task.now.instance.now (claim_of (line_value line)) l →
        OnOk result (Extends l log.old.lines log.new.lines) }
    ensures covered { (l : ClaimTerm) →
        Covers task.now.instance.now (claim_of (line_value line)) l →
        IfOk result (λ k. IsCoveredBy task.now.instance.now log.new.lines l k) }
    ensures counted { OnOk result (length log.new.lines ≡ length log.old.lines + 1) }
{
    let _count = task.instance.len();
    let _number = log.log().len();
    let eased = ease(alloc, task.instance, log.log(), line)?;
    let number = log.push_legal(task.instance, eased)?;
    Ok(number)
}
