//! The records of a file.

ghost use Rattle.std.specs.Prelude.{List, IfOk};
ghost use Rattle.csv_instance.specs.Gives.{Gives, GivesFirst};
ghost use Rattle.csv_instance.specs.Records.{Record, table_of};

use csv::{ByteRecord, ByteRecordsIntoIter, ReaderBuilder};
use dsa_model::NoMemory;
use std::alloc::Global;

/// The records of a file, one by one. An error of the iterator is want of memory: a slice is read
/// without fail, and records may have any length.
pub(crate) fn records<'a>(alloc: Global, bytes: &'a [u8]) -> ByteRecordsIntoIter<&'a [u8]>
    ensures { Gives result (table_of bytes.now) }
{
    ReaderBuilder::new()
        .has_headers(false)
        .flexible(true)
        .from_reader(alloc, bytes)
        .into_byte_records()
}

/// The first of the records that are left, and none where there is none.
pub(crate) fn first_record(
    records: &mut ByteRecordsIntoIter<&[u8]>,
) -> Result<Option<ByteRecord>, NoMemory>
    ensures { (left : List Record) → Gives records.old left
        → IfOk result (GivesFirst left records.new) }
{
    match records.next() {
        Some(Ok(record)) => Ok(Some(record)),
        Some(Err(_)) => Err(NoMemory),
        None => Ok(None),
    }
}
