//! Putting bytes and numbers.

ghost use Rattle.std.specs.Prelude.{◌≡◌, ◌++◌, OnOk, decimal};
ghost use Rattle.layout_picture.specs.Texts.{area_text, attribute};

use crate::scale::Area;
use itoa::Buffer;
use std::alloc::AllocError;

/// Puts bytes.
pub(crate) fn put(text: &mut Vec<u8>, bytes: &[u8]) -> Result<(), AllocError>
    ensures { OnOk result (text.new.items ≡ text.old.items ++ bytes.now) }
{
    text.extend_from_slice(bytes)
}

/// Puts a number in decimal.
pub(crate) fn put_number(text: &mut Vec<u8>, n: u64) -> Result<(), AllocError>
    ensures { OnOk result (text.new.items ≡ text.old.items ++ decimal n) }
{
    let mut buffer = Buffer::new();
    text.extend_from_slice(buffer.format(n).as_bytes())
}

/// Puts an attribute that is a number.
pub(crate) fn put_attribute(text: &mut Vec<u8>, name: &[u8], n: u64) -> Result<(), AllocError>
    ensures { OnOk result (text.new.items ≡ text.old.items ++ attribute name.now n) }
{
    put(text, b" ")?;
    put(text, name)?;
    put(text, b"='")?;
    put_number(text, n)?;
    put(text, b"'")
}

/// Puts the outline of an area.
pub(crate) fn put_area(text: &mut Vec<u8>, area: &Area) -> Result<(), AllocError>
    ensures { OnOk result (text.new.items ≡ text.old.items ++ area_text area.now) }
{
    put(text, b" d='M")?;
    put_number(text, area.x)?;
    put(text, b" ")?;
    put_number(text, area.y)?;
    put(text, b"h")?;
    put_number(text, area.width)?;
    put(text, b"v")?;
    put_number(text, area.height)?;
    put(text, b"h-")?;
    put_number(text, area.width)?;
    put(text, b"z'")?;
    Ok(())
}
