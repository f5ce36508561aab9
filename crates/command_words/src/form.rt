//! What the form of a command says.

ghost use Rattle.std.specs.Prelude.{◌≡◌};
ghost use Rattle.command_words.specs.Forms.{file_of, form_value, option_of, row};

use crate::{OptionName, Role};

/// What a command does with one of its options.
#[derive(Clone, Copy)]
pub(crate) enum Use {
    /// It takes a number.
    Number(OptionName),
    /// It reads its input as an instance.
    Instance,
    /// It reads the file's bytes.
    Reads(Role),
    /// It writes the file.
    Writes(Role),
}

impl Use {
    /// Its option.
    pub(crate) fn option(self) -> OptionName
        ensures { result ≡ option_of self }
    {
        match self {
            Use::Number(option) => option,
            Use::Instance => OptionName::Input,
            Use::Reads(role) | Use::Writes(role) => role.option(),
        }
    }

    /// The file that is read or written.
    pub(crate) fn file(self) -> Option<Role>
        ensures { result ≡ file_of self }
    {
        match self {
            Use::Number(_) => None,
            Use::Instance => Some(Role::Input),
            Use::Reads(role) | Use::Writes(role) => Some(role),
        }
    }
}

/// The words of a command: its own; what it does with the options that it needs, in the order in
/// which they are missed; and those of which it takes a number and can go without.
#[derive(Clone, Copy)]
pub(crate) struct Form {
    pub(crate) word: &'static str,
    pub(crate) needed: &'static [Use],
    pub(crate) optional: &'static [OptionName],
}

/// A row of the table of forms.
pub(crate) fn row(
    word: &'static str,
    needed: &'static [Use],
    optional: &'static [OptionName],
) -> Form
    ensures { form_value result ≡ row word.now needed.now optional.now }
{
    Form {
        word,
        needed,
        optional,
    }
}
