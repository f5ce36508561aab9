//! The values of options.

ghost use Rattle.std.specs.Prelude.{◌≡◌, ◌≤◌, IfSome};
ghost use Rattle.dsa_model.specs.Numbers.{written_number};
ghost use Rattle.dsa_model.specs.Limits.{number_limit};
ghost use Rattle.command_words.specs.Forms.{is_bad};

use crate::form::Use;
use dsa_model::{NUMBER_LIMIT, parse_number};

/// The number that a word of 1 to 20 digits writes, where it is at most 2^60.
pub(crate) fn number_of(word: &str) -> Option<u64>
    ensures value { result ≡ written_number number_limit word.now }
    ensures within { IfSome result (λ number. number ≤ number_limit) }
{
    parse_number(word.as_bytes(), NUMBER_LIMIT)
}

/// Whether an option of this use can't have the value.
pub(crate) fn is_bad(used: Use, value: &str) -> bool
    ensures { result ≡ is_bad used value.now }
{
    match used.file() {
        Some(_) => value.is_empty(),
        None => number_of(value).is_none(),
    }
}
