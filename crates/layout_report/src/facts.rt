//! The facts of an instance.

ghost use Rattle.std.specs.Prelude.{◌≡◌, IfOk, string_bytes};
ghost use Rattle.layout_report.specs.Facts.{bounds_text, peak_text, two_numbers_text};

use dsa_model::NoMemory;
use std::alloc::Global;

/// What is said of an instance before it is laid out.
#[derive(Clone, Copy, Debug, PartialEq, Eq)]
pub struct Facts {
    /// How many buffers it has.
    pub buffers: u32,
    /// The least moment of greatest load, and that load in bytes; none where there are no buffers.
    pub peak: Option<(u64, u64)>,
    /// How many parts it has.
    pub parts: u32,
    /// The lower bound on a capacity that has a layout, in bytes.
    pub bound: u64,
    /// The least modulus that reaches the bound, in bytes.
    pub modulus: u64,
    /// The height of the best start, in bytes.
    pub best: u64,
}

/// Two numbers with a space between them.
fn pair_line(alloc: Global, first: u64, second: u64) -> Result<String, NoMemory>
    ensures { IfOk result (λ text. string_bytes text ≡ two_numbers_text first second) }
{
    Ok(format!(in alloc; "{first} {second}")?)
}

/// A peak's moment and load, or that there is none.
fn peak_line(alloc: Global, peak: Option<(u64, u64)>) -> Result<String, NoMemory>
    ensures { IfOk result (λ text. string_bytes text ≡ peak_text peak) }
{
    match peak {
        Some(peak) => pair_line(alloc, peak.0, peak.1),
        None => Ok(String::from_str(alloc, "none")?),
    }
}

/// The report of the facts: five lines, each a word and its numbers.
pub fn bounds_report(alloc: Global, facts: &Facts) -> Result<Vec<u8>, NoMemory>
    ensures text { IfOk result (λ text. text.items ≡ bounds_text facts.now) }
{
    let peak = peak_line(alloc, facts.peak)?;
    let Facts {
        buffers,
        parts,
        bound,
        modulus,
        best,
        ..
    } = *facts;
    let text = format!(in alloc;
        "buffers {buffers}\npeak {peak}\nparts {parts}\nbound {bound} {modulus}\nbest {best}\n"
    )?;
    Ok(text.into_bytes())
}
