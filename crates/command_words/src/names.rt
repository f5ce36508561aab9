//! The names of a command's files.

ghost use Rattle.std.specs.Prelude.{◌≡◌, map, string_bytes};
ghost use Rattle.std.specs.List.{filter_map, list_any};
ghost use Rattle.std.specs.Str.{bytes_eq};
ghost use Rattle.command_words.specs.Forms.{file_of, form_of};
ghost use Rattle.command_words.specs.Pairs.{pairs_of, has_equal, name_in};

use crate::form::Use;
use crate::pair::value_of;
use crate::{Role, Verb};

/// The name that the words give a file.
pub(crate) fn name_in(words: &[String], role: Role) -> &str
    ensures { result.now ≡ name_in (pairs_of (map string_bytes words.now)) role }
{
    value_of(words, role.option()).unwrap_or("")
}

/// Whether a file that one of the uses reads or writes has this name.
fn has_name(words: &[String], uses: &[Use], name: &str) -> bool
    ensures { let pairs = pairs_of (map string_bytes words.now) in
        result ≡ list_any (λ r. bytes_eq name.now (name_in pairs r)) (filter_map file_of uses.now) }
{
    uses.iter()
        .filter_map(|used| used.file())
        .any(|role| name == name_in(words, role))
}

/// Whether two of the command's files have the same name.
pub(crate) fn has_same_name(verb: Verb, words: &[String]) -> bool
    ensures { let pairs = pairs_of (map string_bytes words.now) in
        result ≡ has_equal (map (name_in pairs) (filter_map file_of (form_of verb).needed)) }
{
    let mut rest = verb.form().needed;
    while let Some((used, after)) = rest.split_first() {
        if let Some(role) = used.file() {
            if has_name(words, after, name_in(words, role)) {
                return true;
            }
        }
        rest = after;
    }
    false
}
