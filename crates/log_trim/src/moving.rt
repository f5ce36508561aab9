//! Lines with new numbers in their cites.

ghost use Rattle.std.specs.Prelude.{◌≡◌, ℕ, ◌<◌, length, map, slice_index, IfOk};
ghost use Rattle.std.specs.List.{flat_map};
ghost use Rattle.dsa_terms.specs.Claims.{IsIn};
ghost use Rattle.dsa_terms.specs.Trims.{moved_cite, moved_line};
ghost use Rattle.dsa_trim_laws.specs.Trimmed.{cited, cited_line};
ghost use Rattle.refute_log.specs.Lines.{cite_value, line_value};

use dsa_model::NoMemory;
use refute_log::{Cite, Cites, Line};
use std::alloc::{AllocError, Global};

/// The cite with the new number of the line that it names.
fn moved_cite(cite: Cite, numbers: &[u64]) -> Cite
    requires { (k : ℕ) → IsIn k (cited_line (cite_value cite)) → k < length numbers.now }
    ensures { cite_value result ≡ moved_cite (slice_index numbers.now) (cite_value cite) }
{
    match cite {
        Cite::Line(k) => Cite::Line(numbers[k as usize]),
        Cite::Below(c) => Cite::Below(c),
        Cite::Twin(c) => Cite::Twin(c),
    }
}

/// The cites with the new numbers of the lines that they name.
fn moved_cites(alloc: Global, cites: &[Cite], numbers: &[u64]) -> Result<Vec<Cite>, AllocError>
    requires { (k : ℕ) → IsIn k (flat_map cited_line (map cite_value cites.now)) →
        k < length numbers.now }
    ensures { let new = map (moved_cite (slice_index numbers.now)) (map cite_value cites.now) in
        IfOk result (λ moved. map cite_value moved.items ≡ new) }
{
    let mut moved = Vec::new(alloc);
    for cite in cites {
        moved.push(moved_cite(*cite, numbers))?;
    }
    Ok(moved)
}

/// The line with the new numbers of the lines that it cites, in memory of its own. The new number
/// of line k stands at place k, and the line cites lines that have one.
pub(crate) fn moved_line(alloc: Global, line: &Line, numbers: &[u64]) -> Result<Line, NoMemory>
    requires { (k : ℕ) → IsIn k (cited (line_value line.now)) → k < length numbers.now }
    ensures { let new = moved_line (slice_index numbers.now) (line_value line.now) in
        IfOk result (λ moved. line_value moved ≡ new) }
{
    match line {
        Line::Over { .. } => line.copy(alloc),
        Line::Cases { claim, cites } => Ok(Line::Cases {
            claim: claim.copy(alloc)?,
            cites: Cites::from_vec(moved_cites(alloc, cites.as_slice(), numbers)?),
        }),
    }
}
