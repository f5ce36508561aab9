//! Whole reads and writes, in pieces, over any reader and writer.

ghost use Rattle.std.specs.Prelude.{◌≡◌, ◌≤◌, ℕ, Ok, IfOk, IfSome, IsErr, OnErr, OnOk, IsErrOf, length, take};
ghost use Rattle.std.specs.Io.KnownBytes.{Appends};
ghost use Rattle.dsa_model.specs.Counts.{one_more};

use crate::{FileFault, SinkFault};
use std::alloc::Global;
use std::io;
use std::io::{ErrorKind, Read, Write};

/// The most bytes of one read, in bytes.
const PIECE: usize = 16384;

/// A call of the system failed, and was counted.
#[derive(Clone, Copy)]
pub(crate) struct Failed;

impl From<Failed> for FileFault {
    ghost use Rattle.std.specs.Prelude.{◌≡◌};
    ghost use Rattle.dsa_outside.specs.declared.fault.FileFault.TheVariants.{Failed as failed};

    ghost from_gives = { λ _ fault. fault ≡ failed };

    fn from(_: Failed) -> Self {
        FileFault::Failed
    }
}

impl From<Failed> for SinkFault {
    ghost use Rattle.std.specs.Prelude.{◌≡◌};
    ghost use Rattle.dsa_outside.specs.declared.fault.SinkFault.TheVariants.{Failed as failed};

    ghost from_gives = { λ _ fault. fault ≡ failed };

    fn from(_: Failed) -> Self {
        SinkFault::Failed
    }
}

/// Whether memory ran out.
pub(crate) fn is_want_of_memory<T>(done: &io::Result<T>) -> bool {
    match done {
        Ok(_) => false,
        Err(e) => e.kind() == ErrorKind::OutOfMemory,
    }
}

/// Counts a call of the system where it failed. The count stays at the end of its type.
pub(crate) fn counted<T: Drop>(faults: &mut u64, done: io::Result<T>) -> Result<T, Failed>
    ensures value { IfOk result (λ value. done ≡ Ok value) }
    ensures refused { OnErr result (IsErr done) }
    ensures failed { OnErr result (faults.new ≡ one_more faults.old) }
    ensures unchanged { OnOk result (faults.new ≡ faults.old) }
    ensures later { faults.old ≤ faults.new }
{
    match done {
        Ok(value) => Ok(value),
        Err(_) => {
            *faults = faults.saturating_add(1);
            Err(Failed)
        }
    }
}

/// The bytes that a reader gives, up to `most` of them: it reads until so many have come, or no
/// more come.
pub(crate) fn read_up_to<F: Read>(
    alloc: Global,
    file: &mut F,
    most: u64,
    faults: &mut u64,
) -> Result<Vec<u8>, FileFault>
    ensures length { IfOk result (λ bytes. length bytes.items ≤ most) }
    ensures bytes { IfOk result (λ bytes.
        IfSome (F.remaining file.old) (λ left. bytes.items ≡ take most left)) }
    ensures failed { IsErrOf result FileFault.Failed → faults.new ≡ one_more faults.old }
    ensures no_memory { IsErrOf result FileFault.NoMemory → faults.new ≡ faults.old }
    ensures unchanged { OnOk result (faults.new ≡ faults.old) }
    ensures later { faults.old ≤ faults.new }
{
    let mut bytes = Vec::new(alloc);
    let mut piece = [0u8; PIECE];
    while (bytes.len() as u64) < most {
        let want = (most - bytes.len() as u64).min(PIECE as u64) as usize;
        let count = counted(faults, file.read(&mut piece[..want]))?;
        if count == 0 {
            return Ok(bytes);
        }
        bytes.extend_from_slice(&piece[..count])?;
    }
    Ok(bytes)
}

/// Writes all the bytes. A call that takes none of them is a failure.
pub(crate) fn write_whole<W: Write>(writer: &mut W, bytes: &[u8]) -> io::Result<()>
    ensures bytes { OnOk result
        (Appends (W.contents writer.old) (W.contents writer.new) bytes.now) }
    ensures prefix { OnErr result ((count : ℕ) ×
        Appends (W.contents writer.old) (W.contents writer.new) (take count bytes.now)) }
{
    let mut rest = bytes;
    while !rest.is_empty() {
        let taken = writer.write(rest)?;
        if taken == 0 {
            return Err(io::ErrorKind::WriteZero.into());
        }
        rest = &rest[taken..];
    }
    Ok(())
}
