//! Ids as XML has them.

ghost use Rattle.std.specs.Prelude.{◌≡◌, ◌≤◌, ◌++◌, ◌<◌, IfOk, OnOk, length};
ghost use Rattle.layout_picture.specs.Escape.{char_text, escaped, is_allowed, piece_size, piece_text};

use bstr::decode_utf8;
use std::alloc::AllocError;

/// U+FFFD in UTF-8.
const REPLACEMENT: &[u8] = &[0xEF, 0xBF, 0xBD];

/// Whether XML allows the character.
fn is_allowed(c: char) -> bool
    ensures { result ≡ is_allowed c }
{
    match c as u32 {
        9 | 10 | 13 => true,
        code => code >= 32 && code != 0xFFFE && code != 0xFFFF,
    }
}

/// Puts the character, or what stands for it where XML gives it a meaning or takes it for another.
fn put_char(text: &mut Vec<u8>, c: char) -> Result<(), AllocError>
    ensures { OnOk result (text.new.items ≡ text.old.items ++ char_text c) }
{
    match c {
        '<' => text.extend_from_slice(b"&lt;"),
        '>' => text.extend_from_slice(b"&gt;"),
        '&' => text.extend_from_slice(b"&amp;"),
        '"' => text.extend_from_slice(b"&quot;"),
        '\'' => text.extend_from_slice(b"&#39;"),
        '\r' => text.extend_from_slice(b"&#13;"),
        _ => text.extend_from_slice(c.encode_utf8(&mut [0; 4]).as_bytes()),
    }
}

/// Puts the character that the bytes begin with, or U+FFFD for the first byte where they begin
/// with none that XML allows, and returns how many bytes it stands for.
fn put_piece(text: &mut Vec<u8>, bytes: &[u8]) -> Result<usize, AllocError>
    requires { 0 < length bytes.now }
    ensures size { IfOk result (λ size. size ≡ piece_size bytes.now) }
    ensures within { IfOk result (λ size. (0 < size) × (size ≤ length bytes.now)) }
    ensures text { OnOk result (text.new.items ≡ text.old.items ++ piece_text bytes.now) }
{
    let (found, size) = decode_utf8(bytes);
    match found {
        Some(c) if is_allowed(c) => {
            put_char(text, c)?;
            Ok(size)
        }
        _ => {
            text.extend_from_slice(REPLACEMENT)?;
            Ok(1)
        }
    }
}

/// Puts the bytes as text that XML allows.
pub(crate) fn put_escaped(text: &mut Vec<u8>, bytes: &[u8]) -> Result<(), AllocError>
    ensures { OnOk result (text.new.items ≡ text.old.items ++ escaped bytes.now) }
{
    let mut rest = bytes;
    while !rest.is_empty() {
        let size = put_piece(text, rest)?;
        rest = &rest[size..];
    }
    Ok(())
}
