//! The texts of faults, as they are printed.

ghost use Rattle.std.specs.Prelude.{◌≡◌, ◌++◌, OnOk, string_bytes};
ghost use Rattle.log_text.specs.FaultTexts.{text_fault_text};

use crate::TextFault;
use dsa_model::NoMemory;

impl TextFault {
    /// Appends the text that is printed for the fault. Where memory runs out, nothing is known of
    /// `text`.
    pub fn append_to(self, text: &mut String) -> Result<(), NoMemory>
        ensures appended { OnOk result
            (string_bytes text.new ≡ string_bytes text.old ++ text_fault_text self) }
    {
        Ok(match self {
            TextFault::NotLog => text.push_str("not a log"),
            TextFault::BadVersion { version } => write!(text, "version {version}"),
            TextFault::BadLine { line } => write!(text, "bad line {line}"),
            TextFault::NumberTooLarge { line } => write!(text, "number too large {line}"),
            TextFault::NotRising { line } => write!(text, "not rising {line}"),
            TextFault::BadBase { line } => write!(text, "bad base {line}"),
            TextFault::BadChange { line } => write!(text, "bad change {line}"),
            TextFault::NoEnd => text.push_str("no end"),
            TextFault::AfterEnd => text.push_str("after end"),
        }?)
    }
}
