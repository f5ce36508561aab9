//! A line of a trace, read.

ghost use Rattle.std.specs.Prelude.{◌≡◌, ◌∷◌, List, MatchOption, MatchResult, Err, None, codes, is_some, length, true};
ghost use Rattle.std.specs.Char.{is_ascii_digit};
ghost use Rattle.std.specs.List.{list_all};
ghost use Rattle.std.specs.Str.Parse.{digits_value};
ghost use Rattle.trace_import.specs.Faults.{with_event};
ghost use Rattle.trace_import.specs.Lines.{event_in, event_of, is_id, is_id_byte, number_of, words_of};
ghost use Rattle.trace_import.specs.Requests.{AreWords, IsRead, event_value, within_range};
ghost use Rattle.trace_import.specs.Traces.{Event};

use crate::fault::TraceFault;
use crate::split::split_once;
use dsa_model::{ALIGNMENT_LIMIT, SIZE_LIMIT, parse_number};

/// What a line asks for.
#[derive(Clone, Copy)]
pub(crate) enum Request<'a> {
    /// To allocate so many bytes, at a multiple of the alignment.
    Alloc {
        id: &'a [u8],
        size: u64,
        alignment: u64,
    },
    /// To free what has that identifier.
    Free {
        id: &'a [u8],
    },
}

/// The words of a line that has its form, after the first.
#[derive(Clone, Copy)]
enum Words<'a> {
    Alloc {
        id: &'a [u8],
        size: &'a [u8],
        alignment: &'a [u8],
    },
    Free {
        id: &'a [u8],
    },
}

/// The first word of a line that allocates.
const ALLOC: &[u8] = b"alloc";

/// The first word of a line that frees.
const FREE: &[u8] = b"free";

/// The greatest length of an identifier, in bytes.
const ID_LIMIT: usize = 255;

/// The greatest count of a number's digits.
const DIGIT_LIMIT: usize = 20;

/// Whether each byte can stand in an identifier.
fn are_id_bytes(bytes: &[u8]) -> bool
    ensures { result ≡ list_all is_id_byte bytes.now }
{
    bytes.iter().all(|byte| *byte >= 33 && *byte <= 126)
}

/// Whether the bytes are an identifier: 1 to 255 of 33 to 126.
fn is_id(bytes: &[u8]) -> bool
    ensures { result ≡ is_id bytes.now }
{
    if bytes.is_empty() || bytes.len() > ID_LIMIT {
        return false;
    }
    are_id_bytes(bytes)
}

/// Whether each byte is a digit.
fn are_digits(bytes: &[u8]) -> bool
    ensures { result ≡ list_all is_ascii_digit bytes.now }
{
    bytes.iter().all(|byte| byte.is_ascii_digit())
}

/// Whether the bytes are 1 to 20 digits.
fn is_number(bytes: &[u8]) -> bool
    ensures { result ≡ is_some (number_of bytes.now) }
{
    if bytes.is_empty() || bytes.len() > DIGIT_LIMIT {
        return false;
    }
    are_digits(bytes)
}

/// The number that these digits write, where it is 1 to `most`.
fn number_within(digits: &[u8], most: u64) -> Option<u64>
    requires { is_some (number_of digits.now) ≡ true }
    ensures { result ≡ within_range most (digits_value 10 digits.now) }
{
    let number = parse_number(digits, most)?;
    if number > 0 { Some(number) } else { None }
}

/// The words after `alloc`.
fn alloc_words(rest: &[u8]) -> Option<Words<'_>>
    ensures { MatchOption result
        (event_of (codes "alloc" ∷ words_of rest.now) ≡ None)
        (AreWords (codes "alloc" ∷ words_of rest.now)) }
{
    let (id, rest) = split_once(rest, b' ')?;
    let (size, alignment) = split_once(rest, b' ')?;
    if is_id(id) && is_number(size) && is_number(alignment) {
        Some(Words::Alloc {
            id,
            size,
            alignment,
        })
    } else {
        None
    }
}

/// The words after `free`.
fn free_words(id: &[u8]) -> Option<Words<'_>>
    ensures { MatchOption result
        (event_of (codes "free" ∷ words_of id.now) ≡ None)
        (AreWords (codes "free" ∷ words_of id.now)) }
{
    if is_id(id) {
        Some(Words::Free { id })
    } else {
        None
    }
}

/// The words of a line, where it has its form.
fn read_words(line: &[u8]) -> Option<Words<'_>>
    ensures { MatchOption result (event_in line.now ≡ None) (AreWords (words_of line.now)) }
{
    let (word, rest) = split_once(line, b' ')?;
    if word == ALLOC {
        alloc_words(rest)
    } else if word == FREE {
        free_words(rest)
    } else {
        None
    }
}

/// Reads the line of that number, which has no NL, or finds what is wrong with it by itself.
pub(crate) fn read_line(bytes: &[u8], line: u32) -> Result<Request<'_>, TraceFault>
    ensures { MatchResult result (λ request. IsRead bytes.now line (event_value request))
        (λ fault. (before : List Event) → length before ≡ line →
        with_event before (event_in bytes.now) ≡ Err fault) }
{
    let Some(words) = read_words(bytes) else {
        return Err(TraceFault::BadLine { line });
    };
    match words {
        Words::Alloc {
            id,
            size,
            alignment,
        } => {
            let Some(size) = number_within(size, SIZE_LIMIT) else {
                return Err(TraceFault::BadSize { line });
            };
            let Some(alignment) = number_within(alignment, ALIGNMENT_LIMIT) else {
                return Err(TraceFault::BadAlignment { line });
            };
            Ok(Request::Alloc {
                id,
                size,
                alignment,
            })
        }
        Words::Free { id } => Ok(Request::Free { id }),
    }
}
