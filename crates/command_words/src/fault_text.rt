//! The texts of faults, as they are printed.

ghost use Rattle.std.specs.Prelude.{◌≡◌, ◌++◌, OnOk, string_bytes};
ghost use Rattle.command_words.specs.FaultTexts.{usage_text};

use crate::UsageFault;
use dsa_model::NoMemory;

impl UsageFault {
    /// Appends the text that is printed for the fault. Where memory runs out, nothing is known of
    /// `text`.
    pub fn append_to(self, text: &mut String) -> Result<(), NoMemory>
        ensures appended { OnOk result
            (string_bytes text.new ≡ string_bytes text.old ++ usage_text self) }
    {
        Ok(match self {
            UsageFault::NoCommand => text.push_str("no command"),
            UsageFault::UnknownCommand => text.push_str("unknown command"),
            UsageFault::UnknownOption { word } => write!(text, "unknown option {word}"),
            UsageFault::RepeatedOption { word } => write!(text, "repeated option {word}"),
            UsageFault::MissingValue { word } => write!(text, "missing value {word}"),
            UsageFault::BadValue { word } => write!(text, "bad value {word}"),
            UsageFault::MissingOption { option } => write!(text, "missing {}", option.word()),
            UsageFault::SameName => text.push_str("same name"),
        }?)
    }
}
