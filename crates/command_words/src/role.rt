//! The files of commands.

ghost use Rattle.std.specs.Prelude.{◌≡◌, ◌<◌, ◌^◌};
ghost use Rattle.command_words.specs.Roles.{limit_of, option_of_role};

use crate::OptionName;

/// A file's part in a command, named by its option.
#[derive(Clone, Copy)]
pub enum Role {
    /// `--input`: the instance.
    Input,
    /// `--layout`: a layout to judge.
    Layout,
    /// `--log`: a log.
    Log,
    /// `--trace`: a recorded run of allocations.
    Trace,
    /// `--output`: the file to write.
    Output,
}

impl Role {
    /// The option that names the file.
    pub fn option(self) -> OptionName
        ensures value { result ≡ option_of_role self }
    {
        match self {
            Role::Input => OptionName::Input,
            Role::Layout => OptionName::Layout,
            Role::Log => OptionName::Log,
            Role::Trace => OptionName::Trace,
            Role::Output => OptionName::Output,
        }
    }

    /// The greatest number of bytes that the file may have.
    pub fn limit(self) -> u64
        ensures value { result ≡ limit_of self }
        ensures within { result < 2 ^ 60 }
    {
        match self {
            Role::Log => 1 << 40,
            Role::Input | Role::Layout | Role::Trace | Role::Output => 1 << 26,
        }
    }
}
