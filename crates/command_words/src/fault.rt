//! What can be wrong with words.

use crate::OptionName;

/// Why words are no command, in order of precedence. Word 0 names the command, and the words from
/// 1 on are taken in pairs; `word` is the place of a pair's first word, or 4294967295 where that is
/// greater. The four faults of a pair are those of the first pair that has one.
#[derive(Clone, Copy, Debug, PartialEq, Eq)]
pub enum UsageFault {
    /// There is no word.
    NoCommand,
    /// The first word names no command.
    UnknownCommand,
    /// The pair's first word is no option of the command.
    UnknownOption { word: u32 },
    /// An earlier pair has the same option.
    RepeatedOption { word: u32 },
    /// The pair has no second word.
    MissingValue { word: u32 },
    /// The value is no number of 1 to 20 digits that is at most 2^60, or an empty name.
    BadValue { word: u32 },
    /// The first option that the command needs and does not have.
    MissingOption { option: OptionName },
    /// Two of the command's files have the same name.
    SameName,
}
