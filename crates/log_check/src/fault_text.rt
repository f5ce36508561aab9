//! The texts of faults, as they are printed.

ghost use Rattle.std.specs.Prelude.{◌≡◌, ◌++◌, OnOk, string_bytes};
ghost use Rattle.log_check.specs.FaultTexts.{check_text};

use crate::CheckFault;
use dsa_model::NoMemory;

impl CheckFault {
    /// Appends the text that is printed for the fault. Where memory runs out, nothing is known of
    /// `text`.
    pub fn append_to(self, text: &mut String) -> Result<(), NoMemory>
        ensures appended { OnOk result
            (string_bytes text.new ≡ string_bytes text.old ++ check_text self) }
    {
        match self {
            CheckFault::WrongCount { said, actual } => Ok(write!(text, "count {said} {actual}")?),
            CheckFault::Illegal { line, reason } => {
                write!(text, "line {line} ")?;
                reason.append_to(text)
            }
            CheckFault::EndRange { end } => Ok(write!(text, "end {end}")?),
            CheckFault::EndNotWhole { end, buffer } => {
                Ok(write!(text, "end {end} bound {buffer}")?)
            }
        }
    }
}
