//! Bytes, split at a mark.

ghost use Rattle.std.specs.Prelude.{◌≡◌, ◌+◌, ◌==◌, ◌∷◌, [], IfNone, IfSome, length, position};
ghost use Rattle.std.specs.List.{slice_split};

/// Where the mark stands first.
fn place_of(bytes: &[u8], mark: u8) -> Option<usize>
    ensures { result ≡ position (λ c. c == mark) bytes.now }
{
    bytes.iter().position(|byte| *byte == mark)
}

/// The bytes before the first mark and those after it, where there is one.
pub(crate) fn split_once(bytes: &[u8], mark: u8) -> Option<(&[u8], &[u8])>
    ensures some { IfSome result (λ parts. slice_split (λ c. c == mark) bytes.now
        ≡ parts.0.now ∷ slice_split (λ c. c == mark) parts.1.now) }
    ensures shorter { IfSome result (λ parts.
        length bytes.now ≡ length parts.0.now + 1 + length parts.1.now) }
    ensures none { IfNone result (slice_split (λ c. c == mark) bytes.now ≡ bytes.now ∷ []) }
{
    let place = place_of(bytes, mark)?;
    Some((&bytes[..place], &bytes[place + 1..]))
}
