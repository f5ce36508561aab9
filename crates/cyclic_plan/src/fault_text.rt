//! The texts of faults, as they are printed.

ghost use Rattle.std.specs.Prelude.{◌≡◌, ◌++◌, OnOk, string_bytes};
ghost use Rattle.cyclic_plan.specs.FaultTexts.{cycle_text};

use crate::CycleFault;
use dsa_model::NoMemory;

impl CycleFault {
    /// Appends the text that is printed for the fault. Where memory runs out, nothing is known of
    /// `text`.
    pub fn append_to(self, text: &mut String) -> Result<(), NoMemory>
        ensures appended { OnOk result
            (string_bytes text.new ≡ string_bytes text.old ++ cycle_text self) }
    {
        match self {
            CycleFault::Instance(fault) => fault.append_to(text),
            CycleFault::Outside { row } => Ok(write!(text, "row {row} outside")?),
            CycleFault::BadBuffer { row, fault } => {
                write!(text, "row {row} ")?;
                fault.append_to(text)
            }
        }
    }
}
