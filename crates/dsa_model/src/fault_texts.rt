//! The texts of faults of buffers and of offsets, as they are printed.

ghost use Rattle.std.specs.Prelude.{◌≡◌, ◌++◌, OnOk, string_bytes};
ghost use Rattle.dsa_model.specs.FaultTexts.{buffer_text, layout_fault_text};

use crate::{BufferFault, LayoutFault, NoMemory};

impl BufferFault {
    /// Appends the text that is printed for the fault. Where memory runs out, nothing is known of
    /// `text`.
    pub fn append_to(self, text: &mut String) -> Result<(), NoMemory>
        ensures appended { OnOk result
            (string_bytes text.new ≡ string_bytes text.old ++ buffer_text self) }
    {
        Ok(match self {
            BufferFault::EmptyLifetime => text.push_str("empty lifetime"),
            BufferFault::ZeroSize => text.push_str("zero size"),
            BufferFault::TooLarge => text.push_str("too large"),
            BufferFault::ZeroAlignment => text.push_str("zero alignment"),
            BufferFault::AlignmentTooLarge => text.push_str("alignment too large"),
            BufferFault::GapEmpty { gap } => write!(text, "gap {gap} empty"),
            BufferFault::GapOutside { gap } => write!(text, "gap {gap} outside"),
            BufferFault::TooManyGaps => text.push_str("too many gaps"),
            BufferFault::NeverLive => text.push_str("never live"),
            BufferFault::LowestTooLarge => text.push_str("lowest too large"),
        }?)
    }
}

impl LayoutFault {
    /// Appends the text that is printed for the fault. Where memory runs out, nothing is known of
    /// `text`.
    pub fn append_to(self, text: &mut String) -> Result<(), NoMemory>
        ensures appended { OnOk result
            (string_bytes text.new ≡ string_bytes text.old ++ layout_fault_text self) }
    {
        Ok(match self {
            LayoutFault::WrongCount => text.push_str("count"),
            LayoutFault::Unaligned { buffer } => write!(text, "unaligned {buffer}"),
            LayoutFault::TooLow { buffer } => write!(text, "too low {buffer}"),
            LayoutFault::Above { buffer } => write!(text, "above {buffer}"),
            LayoutFault::Overlap {
                first,
                second,
                moment,
            } => write!(text, "overlap {first} {second} {moment}"),
        }?)
    }
}
