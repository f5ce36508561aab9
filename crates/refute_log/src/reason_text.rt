//! The texts of reasons, as they are printed.

ghost use Rattle.std.specs.Prelude.{◌≡◌, ◌++◌, OnOk, string_bytes};
ghost use Rattle.refute_log.specs.ReasonTexts.{reason_text};

use crate::Reason;
use dsa_model::NoMemory;

impl Reason {
    /// Appends the text that is printed for the reason. Where memory runs out, nothing is known of
    /// `text`.
    pub fn append_to(self, text: &mut String) -> Result<(), NoMemory>
        ensures appended { OnOk result
            (string_bytes text.new ≡ string_bytes text.old ++ reason_text self) }
    {
        match self {
            Reason::EmptyClaim => Ok(text.push_str("empty claim")?),
            Reason::BufferRange { buffer } => Ok(write!(text, "buffer range {buffer}")?),
            Reason::ZeroModulus => Ok(text.push_str("zero modulus")?),
            Reason::NotMultiple => Ok(text.push_str("not multiple")?),
            Reason::EmptySet => Ok(text.push_str("empty set")?),
            Reason::NotOver => Ok(text.push_str("not over")?),
            Reason::CitesDiffer => Ok(text.push_str("cites differ")?),
            Reason::NotEarlier { buffer } => Ok(write!(text, "not earlier {buffer}")?),
            Reason::NotCovered { buffer } => Ok(write!(text, "not covered {buffer}")?),
            Reason::NotBelow { buffer } => Ok(write!(text, "not below {buffer}")?),
            Reason::NotTwin { buffer } => Ok(write!(text, "not twin {buffer}")?),
        }
    }
}
