//! The first fault of pairs of words.

ghost use Rattle.std.specs.Prelude.{◌≡◌, ◌<◌, ◌+◌, ◌*◌, ◌-◌, ◌^◌, min, [], map, take, length, string_bytes, find, is_none};
ghost use Rattle.command_words.specs.Forms.{form_of, option_of};
ghost use Rattle.command_words.specs.Pairs.{pairs_of, pair_value, pair_fault, pairs_fault, value_of};

use crate::pair::{Pair, has_option, split_pair, value_of};
use crate::value::is_bad;
use crate::{OptionName, UsageFault, Verb};

/// The place of the first word of the pair that so many others come before, or 4294967295 where it
/// is greater.
fn place_after(pairs: usize) -> u32
    requires { pairs < 2 ^ 63 }
    ensures { result ≡ min (2 * pairs + 1) (2 ^ 32 - 1) }
{
    (2 * pairs + 1).min(u32::MAX as usize) as u32
}

/// The first fault of a pair that so many of the pairs of words come before.
fn pair_fault(verb: Verb, words: &[String], earlier: usize, pair: Pair<'_>) -> Option<UsageFault>
    requires small { earlier < 2 ^ 63 }
    requires within { earlier < length (pairs_of (map string_bytes words.now)) }
    ensures { let pairs = pairs_of (map string_bytes words.now) in
        result ≡ pair_fault verb (take earlier pairs) (pair_value pair.entry) }
{
    let word = place_after(earlier);
    let Some(used) = verb.use_of(pair.option) else {
        return Some(UsageFault::UnknownOption { word });
    };
    if has_option(words, earlier, pair.option) {
        return Some(UsageFault::RepeatedOption { word });
    }
    let Some(value) = pair.value else {
        return Some(UsageFault::MissingValue { word });
    };
    if is_bad(used, value) {
        return Some(UsageFault::BadValue { word });
    }
    None
}

/// The fault of the first pair that has one.
pub(crate) fn pairs_fault(verb: Verb, words: &[String]) -> Option<UsageFault>
    ensures { result ≡ pairs_fault verb [] (pairs_of (map string_bytes words.now)) }
{
    let mut rest = words;
    let mut earlier: usize = 0;
    while let Some((pair, after)) = split_pair(rest) {
        if let Some(fault) = pair_fault(verb, words, earlier, pair) {
            return Some(fault);
        }
        rest = after;
        earlier += 1;
    }
    None
}

/// The first option that the command needs and the pairs don't give.
pub(crate) fn first_missing(verb: Verb, words: &[String]) -> Option<OptionName>
    ensures { let pairs = pairs_of (map string_bytes words.now) in
        result ≡ find (λ o. is_none (value_of pairs o))
        (map option_of (form_of verb).needed) }
{
    verb.form()
        .needed
        .iter()
        .map(|used| used.option())
        .find(|option| value_of(words, *option).is_none())
}
