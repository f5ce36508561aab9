//! The text of a made instance.

ghost use Rattle.std.specs.Prelude.{◌≡◌, ◌<◌, ◌≤◌, ◌↔◌, List, Err, IfOk, Ok, length};
ghost use Rattle.dsa_model.specs.Fails.{UnlessNoMemory};
ghost use Rattle.dsa_terms.specs.Buffers.{Buffer};
ghost use Rattle.dsa_model.specs.Buffer.{buffer_limit};
ghost use Rattle.dsa_model.specs.Limits.{file_limit};
ghost use Rattle.csv_instance.specs.Parse.{parse};
ghost use Rattle.csv_instance.specs.Records.{table_of};
ghost use Rattle.make_instance.specs.Made.{made_text};

use crate::draws::Draws;
use crate::row::{line, next_row};
use dsa_model::{BUFFER_LIMIT, Fail};
use std::alloc::Global;

/// Why no instance is made.
#[derive(Clone, Copy)]
pub enum MakeFault {
    /// The count is above `BUFFER_LIMIT`.
    CountTooLarge { count: u64 },
}

/// The first line.
const HEADER: &str = "id,lower,upper,size,alignment,gaps\n";

/// The text of an instance of `count` buffers, as `read_instance` of the crate `csv_instance` reads
/// it: a header line, and a line for each buffer, `bI,lower,upper,size,alignment,gap` with I its
/// number from 0.
///
/// The numbers come from a generator of state x, at first 1 + (seed mod 2147483646). A draw below m
/// sets x to x * 48271 mod 2147483647 and gives x mod m. For each buffer five are drawn, in this
/// order: `lower` below 2 * count; the length, 1 and a draw below 16, with which `upper` is
/// lower + length; `size`, 1 and a draw below 64; `alignment`, 1 and a draw below 4; and a draw
/// below 4. Where that is 0 and the length is at least 3 there is one gap, from lower + 1 to
/// upper - 1, written `a-b`; else the field is empty.
pub fn make(alloc: Global, seed: u64, count: u64) -> Result<Vec<u8>, Fail<MakeFault>>
    ensures value { UnlessNoMemory result (λ text. text.items ≡ made_text seed count)
        (λ fault. fault ≡ MakeFault.CountTooLarge count) }
    ensures refused { (result ≡ Err (Fail.Fault (MakeFault.CountTooLarge count))) ↔
        (buffer_limit < count) }
    ensures short { IfOk result (λ text. length text.items ≤ file_limit) }
    ensures parsed { IfOk result (λ text. (I : List Buffer)
        × (parse (table_of text.items) ≡ Ok I) × (length I ≡ count)) }
{
    if count > BUFFER_LIMIT as u64 {
        return Err(Fail::Fault(MakeFault::CountTooLarge { count }));
    }
    let mut draws = Draws::new(seed);
    let mut text = String::from_str(alloc, HEADER)?;
    for number in 0..count {
        let row = next_row(&mut draws, count);
        let line = line(alloc, number, &row)?;
        text.push_str(line.as_str())?;
    }
    Ok(text.into_bytes())
}
