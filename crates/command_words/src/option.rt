//! The options of commands.

ghost use Rattle.std.specs.Prelude.{◌≡◌};
ghost use Rattle.command_words.specs.Options.{option_word};

/// An option of a command; its word is its name after two dashes.
#[derive(Clone, Copy, Debug, PartialEq, Eq)]
pub enum OptionName {
    /// `--capacity`: a capacity in bytes.
    Capacity,
    /// `--input`: the name of the instance file.
    Input,
    /// `--output`: the name of the file to write.
    Output,
    /// `--log`: the name of the log's file.
    Log,
    /// `--layout`: the name of a layout file.
    Layout,
    /// `--trace`: the name of a trace.
    Trace,
    /// `--steps`: a budget in units, each a claim that is opened, or for `pack` also so much
    /// placing.
    Steps,
    /// `--seed`: the seed of a made instance.
    Seed,
    /// `--count`: the number of buffers of a made instance.
    Count,
    /// `--period`: the number of moments after which lifetimes repeat.
    Period,
}

impl OptionName {
    /// The word of the option, its two dashes included.
    pub fn word(&self) -> &'static str
        ensures { result.now ≡ option_word self.now }
    {
        match self {
            OptionName::Capacity => "--capacity",
            OptionName::Input => "--input",
            OptionName::Output => "--output",
            OptionName::Log => "--log",
            OptionName::Layout => "--layout",
            OptionName::Trace => "--trace",
            OptionName::Steps => "--steps",
            OptionName::Seed => "--seed",
            OptionName::Count => "--count",
            OptionName::Period => "--period",
        }
    }
}
