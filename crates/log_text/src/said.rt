//! What a row says after the lines before it: its claim in full.

ghost use Rattle.std.specs.Prelude.{◌≡◌, ◌<◌, All, length};
ghost use Rattle.dsa_model.specs.Fails.{UnlessNoMemory};
ghost use Rattle.log_text.specs.RawLogs.{IsRawLineKept, raw_claim_of};
ghost use Rattle.log_text.specs.Rows.{IsClaimSaid, IsLineSaid, IsUnsaid, spelled_value, spelling_value};
ghost use Rattle.log_text.specs.Says.{IsLineRising, IsSpellingRising};
ghost use Rattle.log_text.specs.Spellings.{claim_at, spelling_of};

use crate::changes::carry_out;
use crate::room::copy_of;
use crate::rows::{ReadClaim, ReadLine};
use crate::{RawClaim, RawLine};
use dsa_model::Fail;
use std::alloc::Global;

/// A line of the log with its claim in full, or the end.
#[derive(Drop)]
pub(crate) enum Said {
    Line(RawLine),
    End(u64),
}

/// What is wrong with a difference.
#[derive(Clone, Copy)]
pub(crate) enum Unsaid {
    /// It is of no earlier line's claim.
    NoBase,
    /// A change changes nothing, or no buffer is left.
    NoChange,
}

/// The pairs of the line's claim.
fn pairs_of(line: &RawLine) -> &[(u64, u64)]
    ensures { result.now ≡ raw_claim_of line.now }
{
    match line {
        RawLine::Over { claim, .. } => claim.as_slice(),
        RawLine::Cases { claim, .. } => claim.as_slice(),
    }
}

/// The pairs of the claim of the line of that number.
#[tactic(auto, using(crate::proofs::SaidLemmas::claim_there))]
fn pairs_at(lines: &[RawLine], k: u64) -> &[(u64, u64)]
    requires { k < length lines.now }
    ensures { result.now ≡ claim_at lines.now k }
{
    pairs_of(&lines[k as usize])
}

/// The claim that is spelled after these lines, in time and memory of the changes and of what they
/// give. A difference is carried out in that room.
fn claim_said(
    alloc: Global,
    room: &mut Vec<(u64, u64)>,
    lines: &[RawLine],
    claim: ReadClaim,
) -> Result<RawClaim, Fail<Unsaid>>
    requires kept { All IsRawLineKept lines.now }
    requires rising { IsSpellingRising (spelling_value claim) }
    ensures { UnlessNoMemory result
        (λ said. IsClaimSaid lines.now (spelling_value claim) said)
        (λ fault. IsUnsaid lines.now (spelling_value claim) fault) }
{
    match claim {
        ReadClaim::Full(claim) => Ok(claim),
        ReadClaim::From(base, changes) => {
            if base >= lines.len() as u64 {
                return Err(Fail::Fault(Unsaid::NoBase));
            }
            let earlier = pairs_at(lines, base);
            if !carry_out(room, earlier, changes.as_slice())? {
                return Err(Fail::Fault(Unsaid::NoChange));
            }
            let pairs = copy_of(alloc, room.as_slice())?;
            Ok(RawClaim::from_vec(pairs))
        }
    }
}

/// The line that is spelled after these lines. A difference is carried out in that room.
pub(crate) fn line_said(
    alloc: Global,
    room: &mut Vec<(u64, u64)>,
    lines: &[RawLine],
    line: ReadLine,
) -> Result<RawLine, Fail<Unsaid>>
    requires kept { All IsRawLineKept lines.now }
    requires rising { IsLineRising (spelled_value line) }
    ensures { UnlessNoMemory result
        (λ said. IsLineSaid lines.now (spelled_value line) said)
        (λ fault. IsUnsaid lines.now (spelling_of (spelled_value line)) fault) }
{
    match line {
        ReadLine::Over {
            moment,
            height,
            modulus,
            claim,
        } => {
            let claim = claim_said(alloc, room, lines, claim)?;
            Ok(RawLine::Over {
                moment,
                height,
                modulus,
                claim,
            })
        }
        ReadLine::Cases { claim, cites } => {
            let claim = claim_said(alloc, room, lines, claim)?;
            Ok(RawLine::Cases { claim, cites })
        }
    }
}
