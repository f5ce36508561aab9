//! What a command line asks for.

ghost use Rattle.std.specs.Prelude.{◌≡◌, ◌≤◌, map, string_bytes, IfSome};
ghost use Rattle.dsa_model.specs.Limits.{number_limit};
ghost use Rattle.command_words.specs.Pairs.{pairs_of, name_in, number_at, number_given};
ghost use Rattle.command_words.specs.Requests as terms;

use crate::names::name_in;
use crate::{OptionName, Role, Verb, pair};
use std::marker::Model;

/// A command with the values of its options, which it borrows from the words. A contract sees the
/// command and its pairs.
#[derive(Drop)]
pub struct Request<'a> {
    verb: Verb,
    words: &'a [String],
}

impl<'a> Model for Request<'a> {
    ghost Value = { terms.Request };

    ghost view = { λ r. record { verb = r.verb; pairs = pairs_of (map string_bytes r.words.now) } };
}

impl<'a> Request<'a> {
    /// The command with these words after its own.
    pub(crate) fn new(verb: Verb, words: &'a [String]) -> Request<'a>
        ensures { result ≡ record { verb = verb; pairs = pairs_of (map string_bytes words.now) } }
    {
        Request { verb, words }
    }

    /// The command.
    pub fn verb(&self) -> Verb
        ensures value { result ≡ self.now.verb }
    {
        self.verb
    }

    /// The name that is given for the file; an empty one where none is.
    pub fn name(&self, role: Role) -> &'a str
        ensures value { result.now ≡ name_in self.now.pairs role }
    {
        name_in(self.words, role)
    }

    /// The number that is given for the option, and 0 where none is.
    pub fn number(&self, option: OptionName) -> u64
        ensures value { result ≡ number_at self.now.pairs option }
        ensures within { result ≤ number_limit }
    {
        pair::number_at(self.words, option)
    }

    /// The number that is given for the option, where one is.
    pub fn number_given(&self, option: OptionName) -> Option<u64>
        ensures value { result ≡ number_given self.now.pairs option }
        ensures within { IfSome result (λ k. k ≤ number_limit) }
    {
        pair::number_given(self.words, option)
    }
}
