//! A layout file, read.

ghost use Rattle.std.specs.Prelude.{◌≡◌, ◌∷◌, ◌<◌, ◌≤◌, ◌+◌, ◌^◌, List, ℕ, IfOk, Ok, Err, Some, None, length, map, not, is_some, option_map, position};
ghost use Rattle.dsa_model.specs.Buffer.{buffer_limit};
ghost use Rattle.dsa_model.specs.Fails.{UnlessNoMemory};
ghost use Rattle.dsa_model.specs.Limits.{file_limit};
ghost use Rattle.csv_instance.specs.Found.{AreColumns, AreFound, by_buffer};
ghost use Rattle.csv_instance.specs.Gives.{Gives};
ghost use Rattle.csv_instance.specs.Layout.{layout_text};
ghost use Rattle.csv_instance.specs.Offsets.{AreOffsets, ids_of, layout_header_fault, parsed_offsets};
ghost use Rattle.csv_instance.specs.Records.{Record, table_of};
ghost use Rattle.csv_instance.specs.declared.fault.OffsetsFault.TheVariants as fault;

use crate::fault::OffsetsFault;
use crate::offset_row::{OffsetColumns, find_offset_columns, note_next};
use crate::records::{first_record, records};
use crate::table::Table;
use csv::ByteRecordsIntoIter;
use dsa_model::{Fail, NoMemory};
use indexmap::{IndexMap, IndexSet};
use std::alloc::Global;

/// The columns of a layout file, whose header is the first of the records, or the header's fault.
fn read_columns(
    records: &mut ByteRecordsIntoIter<&[u8]>,
) -> Result<OffsetColumns, Fail<OffsetsFault>>
    ensures { (ids : List (List ℕ)) (left : List Record) → Gives records.old left
        → UnlessNoMemory result
        (λ columns. (header : Record) × (rows : List Record) × (left ≡ header ∷ rows)
        × Gives records.new rows × (layout_header_fault header ≡ None) × AreColumns header columns)
        (λ fault. parsed_offsets ids left ≡ Err fault) }
{
    match first_record(records) {
        Ok(Some(header)) => match find_offset_columns(&header) {
            Ok(columns) => Ok(columns),
            Err(fault) => Err(Fail::Fault(fault)),
        },
        Ok(None) => Err(Fail::Fault(OffsetsFault::NoHeader)),
        Err(NoMemory) => Err(Fail::NoMemory),
    }
}

/// The offsets of the rows that are left by their ids, or the first fault of these rows.
fn note_rows(
    alloc: Global,
    ids: &IndexSet<Vec<u8>>,
    columns: &OffsetColumns,
    records: ByteRecordsIntoIter<&[u8]>,
) -> Result<IndexMap<Vec<u8>, u64>, Fail<OffsetsFault>>
    requires { (header : Record) × (rows : List Record) × Gives records rows
        × (layout_header_fault header ≡ None) × AreColumns header columns.now
        × (length rows < 2 ^ 32) }
    ensures { let known = map (λ k. k.items) ids.now.keys in
        (header : Record) (rows : List Record) → Gives records.entry rows
        → layout_header_fault header ≡ None → AreColumns header columns.now → UnlessNoMemory result
        (λ found. AreFound known (header ∷ rows) found.entries)
        (λ fault. parsed_offsets known (header ∷ rows) ≡ Err fault) }
{
    let mut found = IndexMap::new(alloc);
    for row in records {
        match note_next(alloc, ids, columns, row, &mut found) {
            Ok(()) => {}
            Err(failure) => return Err(failure),
        }
    }
    Ok(found)
}

/// The offsets of a layout file by their ids, or the first fault of its header and its rows.
fn read_rows(
    alloc: Global,
    ids: &IndexSet<Vec<u8>>,
    bytes: &[u8],
) -> Result<IndexMap<Vec<u8>, u64>, Fail<OffsetsFault>>
    requires { length bytes.now ≤ file_limit }
    ensures { let known = map (λ k. k.items) ids.now.keys in UnlessNoMemory result
        (λ found. AreFound known (table_of bytes.now) found.entries)
        (λ fault. parsed_offsets known (table_of bytes.now) ≡ Err fault) }
{
    let mut records = records(alloc, bytes);
    match read_columns(&mut records) {
        Ok(columns) => note_rows(alloc, ids, &columns, records),
        Err(failure) => Err(failure),
    }
}

/// The offsets of the ids in their order, or the first id without one.
fn offsets_by_buffer(
    alloc: Global,
    ids: &IndexSet<Vec<u8>>,
    found: &IndexMap<Vec<u8>, u64>,
) -> Result<Vec<u64>, Fail<OffsetsFault>>
    requires { length ids.now.keys ≤ buffer_limit }
    ensures { let found = by_buffer ids.now.keys found.now.entries in UnlessNoMemory result
        (λ offsets. map Some offsets.items ≡ found)
        (λ f. option_map fault.MissingId (position (λ o. not (is_some o)) found) ≡ Some f) }
{
    let mut offsets = Vec::new(alloc);
    for id in ids.as_slice() {
        let Some(offset) = found.get(id.as_slice()) else {
            return Err(Fail::Fault(OffsetsFault::MissingId {
                buffer: offsets.len() as u32,
            }));
        };
        if offsets.push(*offset).is_err() {
            return Err(Fail::NoMemory);
        }
    }
    Ok(offsets)
}

/// The offsets that a layout file gives the buffers of a table, by buffer, or the file's first
/// fault: that of the header, or else that of the first row that has one, or else the least buffer
/// without a row. The caller owes at most 67108864 bytes. Only the columns `id` and `offset` have a
/// meaning, and rows come in any order. What `write_layout` gives of offsets of at most 2^60 gives
/// them back.
pub fn read_offsets(
    alloc: Global,
    table: &Table,
    bytes: &[u8],
) -> Result<Vec<u64>, Fail<OffsetsFault>>
    requires { length bytes.now ≤ file_limit }
    ensures read { let read = parsed_offsets (ids_of table.now) (table_of bytes.now) in
        UnlessNoMemory result (λ offsets. read ≡ Ok offsets.items) (λ fault. read ≡ Err fault) }
    ensures count { IfOk result (λ offsets. length table.now ≡ length offsets.items + 1) }
    ensures limit { IfOk result (λ offsets. AreOffsets offsets.items) }
    ensures back { (offsets : List ℕ) → AreOffsets offsets → length table.now ≡ length offsets + 1
        → bytes.now ≡ layout_text table.now offsets
        → UnlessNoMemory result (λ back. back.items ≡ offsets) (λ _. ⊥) }
{
    let ids = table.rows().ids();
    let found = match read_rows(alloc, ids, bytes) {
        Ok(found) => found,
        Err(failure) => return Err(failure),
    };
    offsets_by_buffer(alloc, ids, &found)
}
