//! The words, read.

ghost use Rattle.std.specs.Prelude.{◌≡◌, false, map, string_bytes, MatchResult, IfOk, Ok, Err};
ghost use Rattle.command_words.specs.Pairs.{has_equal};
ghost use Rattle.command_words.specs.Requests.{request_of, names_of};

use crate::judge::{first_missing, pairs_fault};
use crate::names::has_same_name;
use crate::{Request, UsageFault, Verb};

/// The command that the words ask for, or their first fault, in the order of `UsageFault`. The
/// words are those after the program's name: the command, then its options as `Verb` has them, in
/// any order, each once and followed by its value. A value may look like an option. A number has 1
/// to 20 digits and is at most 2^60; names of files are not empty, and no two of them are equal.
pub fn read_words(words: &[String]) -> Result<Request<'_>, UsageFault>
    ensures value { MatchResult result
        (λ r. request_of (map string_bytes words.now) ≡ Ok r)
        (λ f. request_of (map string_bytes words.now) ≡ Err f) }
    ensures apart { IfOk result (λ r. has_equal (names_of r) ≡ false) }
{
    let Some((name, words)) = words.split_first() else {
        return Err(UsageFault::NoCommand);
    };
    let Some(verb) = Verb::of(name.as_str()) else {
        return Err(UsageFault::UnknownCommand);
    };
    if let Some(fault) = pairs_fault(verb, words) {
        return Err(fault);
    }
    if let Some(option) = first_missing(verb, words) {
        return Err(UsageFault::MissingOption { option });
    }
    if has_same_name(verb, words) {
        return Err(UsageFault::SameName);
    }
    Ok(Request::new(verb, words))
}
