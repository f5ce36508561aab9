//! The commands.

ghost use Rattle.std.specs.Prelude.{◌≡◌};
ghost use Rattle.command_words.specs.Forms.{form_of, form_value, use_of, verb_of};

use crate::form::{Form, Use, row};
use crate::{OptionName, Role};

/// A command. C is a capacity in bytes, S a seed, N a count of buffers, the P of `--period` a
/// period in moments and K a budget in units, each a claim that is opened, or for `pack` also so
/// much placing; the others are names of files.
#[derive(Clone, Copy, Debug, PartialEq, Eq)]
pub enum Verb {
    /// `solve --capacity C --input I --output O --log L`, and `--steps K` where it is given: lay
    /// the buffers out within the capacity, or prove that they do not fit.
    Solve,
    /// `least --input I --output O --log L`, and `--steps K` where it is given: lay the buffers out
    /// within the least capacity, and prove that they do not fit in less.
    Least,
    /// `pack --input I --output O --log L --steps K`, and `--capacity C` where it is given: lay the
    /// buffers out as low as so many steps can, or within the capacity, and prove what doesn't fit.
    Pack,
    /// `verify --capacity C --input I --layout A`: judge a layout at the capacity.
    Verify,
    /// `refute --input I --log L`: check a log that claims that the buffers do not fit.
    Refute,
    /// `trim --input I --log L --output O`: write the log without the lines that its end does not
    /// need.
    Trim,
    /// `upgrade --input I --log L --output O`: write the log in the second version of its text.
    Upgrade,
    /// `bounds --input I`: print the facts of the instance.
    Bounds,
    /// `inspect --input I`: print how each column of the header is read.
    Inspect,
    /// `report --input I --layout A`: print the layout at the instance's peak.
    Report,
    /// `draw --input I --layout A --output P`: write a picture of the layout.
    Draw,
    /// `trial --seed S --count N --steps K`: make an instance of so many buffers from the seed, and
    /// look for its least capacity within the budget.
    Trial,
    /// `import --trace T --output O`: make an instance of a recorded run of allocations.
    Import,
    /// `unroll --period P --input I --output O`: make an instance of one period of buffers whose
    /// moments repeat with the period P.
    Unroll,
    /// `classes --input I --output O`: write a plan by size class.
    Classes,
    /// `core --capacity C --input I --output O --log L`: write an irreducible set of buffers that
    /// do not fit within the capacity.
    Core,
}

/// The commands that there are.
const VERBS: [Verb; 16] = [
    Verb::Solve,
    Verb::Least,
    Verb::Pack,
    Verb::Verify,
    Verb::Refute,
    Verb::Trim,
    Verb::Upgrade,
    Verb::Bounds,
    Verb::Inspect,
    Verb::Report,
    Verb::Draw,
    Verb::Trial,
    Verb::Import,
    Verb::Unroll,
    Verb::Classes,
    Verb::Core,
];

impl Verb {
    /// The form of the command.
    pub(crate) fn form(self) -> Form
        ensures { form_value result ≡ form_of self }
    {
        use OptionName::{Capacity, Count, Period, Seed, Steps};
        use Role::{Input, Layout, Log, Output, Trace};
        use Use::{Instance, Number, Reads, Writes};
        match self {
            Verb::Solve => row(
                "solve",
                &[Number(Capacity), Instance, Writes(Output), Writes(Log)],
                &[Steps],
            ),
            Verb::Least => row("least", &[Instance, Writes(Output), Writes(Log)], &[Steps]),
            Verb::Pack => row(
                "pack",
                &[Instance, Writes(Output), Writes(Log), Number(Steps)],
                &[Capacity],
            ),
            Verb::Verify => row("verify", &[Number(Capacity), Instance, Reads(Layout)], &[]),
            Verb::Refute => row("refute", &[Instance, Reads(Log)], &[]),
            Verb::Trim => row("trim", &[Instance, Reads(Log), Writes(Output)], &[]),
            Verb::Upgrade => row("upgrade", &[Instance, Reads(Log), Writes(Output)], &[]),
            Verb::Bounds => row("bounds", &[Instance], &[]),
            Verb::Inspect => row("inspect", &[Instance], &[]),
            Verb::Report => row("report", &[Instance, Reads(Layout)], &[]),
            Verb::Draw => row("draw", &[Instance, Reads(Layout), Writes(Output)], &[]),
            Verb::Trial => row("trial", &[Number(Seed), Number(Count), Number(Steps)], &[]),
            Verb::Import => row("import", &[Reads(Trace), Writes(Output)], &[]),
            Verb::Unroll => row(
                "unroll",
                &[Number(Period), Reads(Input), Writes(Output)],
                &[],
            ),
            Verb::Classes => row("classes", &[Instance, Writes(Output)], &[]),
            Verb::Core => row(
                "core",
                &[Number(Capacity), Instance, Writes(Output), Writes(Log)],
                &[],
            ),
        }
    }

    /// The command that has this word.
    pub(crate) fn of(word: &str) -> Option<Verb>
        ensures { result ≡ verb_of word.now }
    {
        VERBS.iter().copied().find(|verb| verb.form().word == word)
    }

    /// What the command does with the option that has this word.
    pub(crate) fn use_of(self, word: &str) -> Option<Use>
        ensures { result ≡ use_of self word.now }
    {
        let form = self.form();
        form.needed
            .iter()
            .copied()
            .chain(form.optional.iter().map(|option| Use::Number(*option)))
            .find(|used| used.option().word() == word)
    }
}
