//! The words after the command, taken two by two.

ghost use Rattle.std.specs.Prelude.{◌≡◌, ◌∷◌, ◌<◌, ◌≤◌, [], map, take, length, string_bytes, MatchOption, IfSome, option_map, is_some};
ghost use Rattle.std.specs.List.{list_any};
ghost use Rattle.std.specs.Str.{bytes_eq};
ghost use Rattle.dsa_model.specs.Limits.{number_limit};
ghost use Rattle.command_words.specs.Pairs.{pairs_of, pair_value, value_of, number_at, number_given};

use crate::OptionName;
use crate::value::number_of;

/// A word and the word after it, where there is one.
#[derive(Clone, Copy)]
pub(crate) struct Pair<'a> {
    pub(crate) option: &'a str,
    pub(crate) value: Option<&'a str>,
}

/// The first pair of words, and the words after it.
pub(crate) fn split_pair(words: &[String]) -> Option<(Pair<'_>, &[String])>
    ensures pairs { MatchOption result (pairs_of (map string_bytes words.now) ≡ [])
        (λ s. pairs_of (map string_bytes words.now)
        ≡ pair_value s.0 ∷ pairs_of (map string_bytes s.1.now)) }
    ensures shorter { IfSome result (λ s. length s.1.now < length words.now) }
{
    let (option, after) = words.split_first()?;
    let option = option.as_str();
    match after.split_first() {
        None => Some((
            Pair {
                option,
                value: None,
            },
            after,
        )),
        Some((value, rest)) => {
            let value = Some(value.as_str());
            Some((Pair { option, value }, rest))
        }
    }
}

/// Whether one of so many first pairs has the option.
pub(crate) fn has_option(words: &[String], pairs: usize, option: &str) -> bool
    ensures { let all = pairs_of (map string_bytes words.now) in
        result ≡ list_any (λ p. bytes_eq p.option option.now) (take pairs all) }
{
    let mut rest = words;
    for _ in 0..pairs {
        let Some((pair, after)) = split_pair(rest) else {
            return false;
        };
        if pair.option == option {
            return true;
        }
        rest = after;
    }
    false
}

/// The value that the pairs give an option.
pub(crate) fn value_of(words: &[String], option: OptionName) -> Option<&str>
    ensures value { let pairs = pairs_of (map string_bytes words.now) in
        option_map (λ v. v.now) result ≡ value_of pairs option }
    ensures given { let pairs = pairs_of (map string_bytes words.now) in
        is_some result ≡ is_some (value_of pairs option) }
{
    let word = option.word();
    let mut rest = words;
    while let Some((pair, after)) = split_pair(rest) {
        if pair.option == word {
            return pair.value;
        }
        rest = after;
    }
    None
}

/// The number that the pairs give an option, where they give one.
pub(crate) fn number_given(words: &[String], option: OptionName) -> Option<u64>
    ensures value { result ≡ number_given (pairs_of (map string_bytes words.now)) option }
    ensures within { IfSome result (λ number. number ≤ number_limit) }
{
    let word = value_of(words, option)?;
    number_of(word)
}

/// The number that the pairs give an option, and 0 where they give none that can be.
pub(crate) fn number_at(words: &[String], option: OptionName) -> u64
    ensures value { result ≡ number_at (pairs_of (map string_bytes words.now)) option }
    ensures within { result ≤ number_limit }
{
    number_given(words, option).unwrap_or(0)
}
