//! The texts of faults, as they are printed.

ghost use Rattle.std.specs.Prelude.{◌≡◌, ◌++◌, OnOk, codes, decimal, string_bytes};
ghost use Rattle.trace_import.specs.FaultTexts.{trace_fault_text};

use crate::TraceFault;
use dsa_model::NoMemory;

/// Appends what is wrong with a line.
fn append_line(text: &mut String, what: &str, line: u32) -> Result<(), NoMemory>
    ensures { let number = codes " " ++ decimal line in
        OnOk result (string_bytes text.new ≡ string_bytes text.old ++ (what.now ++ number)) }
{
    Ok(write!(text, "{what} {line}")?)
}

/// Appends a line that allocates what an earlier one holds.
fn append_still_live(text: &mut String, line: u32, earlier: u32) -> Result<(), NoMemory>
    ensures { let numbers = decimal line ++ codes " " ++ decimal earlier in OnOk result
        (string_bytes text.new ≡ string_bytes text.old ++ (codes "still live " ++ numbers)) }
{
    Ok(write!(text, "still live {line} {earlier}")?)
}

impl TraceFault {
    /// Appends the text that is printed for the fault. Where memory runs out, nothing is known of
    /// `text`.
    pub fn append_to(self, text: &mut String) -> Result<(), NoMemory>
        ensures appended { OnOk result
            (string_bytes text.new ≡ string_bytes text.old ++ trace_fault_text self) }
    {
        match self {
            TraceFault::BadLine { line } => append_line(text, "bad line", line),
            TraceFault::BadSize { line } => append_line(text, "bad size", line),
            TraceFault::BadAlignment { line } => append_line(text, "bad alignment", line),
            TraceFault::StillLive { line, earlier } => append_still_live(text, line, earlier),
            TraceFault::NotLive { line } => append_line(text, "not live", line),
            TraceFault::TooManyBuffers { line } => append_line(text, "too many buffers", line),
        }
    }
}
