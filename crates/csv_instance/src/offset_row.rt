//! The header and the rows of a layout file.

ghost use Rattle.std.specs.Prelude.{◌≡◌, ◌<◌, ◌^◌, ◌++◌, ◌∷◌, [], List, ℕ, Some, None, MatchResult, length, map};
ghost use Rattle.csv.specs.Records.{fields_of};
ghost use Rattle.dsa_model.specs.Fails.{UnlessNoMemory};
ghost use Rattle.csv_instance.specs.Found.{AreColumns, AreOf};
ghost use Rattle.csv_instance.specs.Gives.{GaveRecord};
ghost use Rattle.csv_instance.specs.Offsets.{layout_header_fault, layout_row_fault, offset_in};
ghost use Rattle.csv_instance.specs.Records.{Record};

use crate::columns::{Column, field_at, find_column};
use crate::fault::OffsetsFault;
use crate::header::first_twice;
use csv::ByteRecord;
use dsa_model::{Fail, parse_number};
use indexmap::{IndexMap, IndexSet};
use std::alloc::Global;

/// The greatest offset.
const OFFSET_LIMIT: u64 = 1152921504606846976;

/// The columns of a layout file that have a meaning.
const COLUMNS: [Column; 2] = [Column::Id, Column::Offset];

/// How many columns a layout file has, and where those that have a meaning stand.
#[derive(Clone, Copy)]
pub(crate) struct OffsetColumns {
    pub(crate) count: usize,
    pub(crate) id: usize,
    pub(crate) offset: usize,
}

/// The columns of a layout file, or the first fault of its header.
pub(crate) fn find_offset_columns(header: &ByteRecord) -> Result<OffsetColumns, OffsetsFault>
    ensures { let fields = fields_of header.now in MatchResult result
        (λ columns. (layout_header_fault fields ≡ None) × AreColumns fields columns)
        (λ fault. layout_header_fault fields ≡ Some fault) }
{
    if let Some(column) = first_twice(header, &COLUMNS) {
        return Err(OffsetsFault::DuplicateColumn { column });
    }
    let Some(id) = find_column(header, Column::Id) else {
        return Err(OffsetsFault::MissingColumn { column: Column::Id });
    };
    let Some(offset) = find_column(header, Column::Offset) else {
        return Err(OffsetsFault::MissingColumn {
            column: Column::Offset,
        });
    };
    Ok(OffsetColumns {
        count: header.len(),
        id,
        offset,
    })
}

/// The offset of a row, or the row's first fault.
fn read_offset(
    ids: &IndexSet<Vec<u8>>,
    found: &IndexMap<Vec<u8>, u64>,
    columns: &OffsetColumns,
    row: &ByteRecord,
) -> Result<u64, OffsetsFault>
    requires { length found.now.entries < 2 ^ 32 }
    ensures { let known = map (λ k. k.items) ids.now.keys in let fields = fields_of row.now in
        (header : Record) → (before : List Record) → AreColumns header columns.now
        → AreOf header before found.now.entries → MatchResult result
        (λ offset. (layout_row_fault known header before fields ≡ None)
        × (offset_in header fields ≡ Some offset))
        (λ fault. layout_row_fault known header before fields ≡ Some fault) }
{
    let number = found.len() as u32;
    if row.len() != columns.count {
        return Err(OffsetsFault::FieldCount { row: number });
    }
    let id = field_at(row, columns.id);
    if !ids.contains(id) {
        return Err(OffsetsFault::UnknownId { row: number });
    }
    if let Some(earlier) = found.get_index_of(id) {
        return Err(OffsetsFault::DuplicateId {
            row: number,
            earlier: earlier as u32,
        });
    }
    match parse_number(field_at(row, columns.offset), OFFSET_LIMIT) {
        Some(offset) => Ok(offset),
        None => Err(OffsetsFault::BadNumber { row: number }),
    }
}

/// Puts the id and the offset of a record behind those of the rows before it, or tells the row's
/// first fault, and want of memory where the record could not be read.
pub(crate) fn note_next(
    alloc: Global,
    ids: &IndexSet<Vec<u8>>,
    columns: &OffsetColumns,
    row: Result<ByteRecord, csv::Error>,
    found: &mut IndexMap<Vec<u8>, u64>,
) -> Result<(), Fail<OffsetsFault>>
    requires { length found.old.entries < 2 ^ 32 }
    ensures { let known = map (λ k. k.items) ids.now.keys in
        (header : Record) → (before : List Record) → AreColumns header columns.now
        → AreOf header before found.old.entries → UnlessNoMemory result
        (λ _. GaveRecord row (λ fields. (layout_row_fault known header before fields ≡ None)
        × AreOf header (before ++ fields ∷ []) found.new.entries))
        (λ fault. GaveRecord row
        (λ fields. layout_row_fault known header before fields ≡ Some fault)) }
{
    let Ok(row) = row else {
        return Err(Fail::NoMemory);
    };
    let offset = match read_offset(ids, found, columns, &row) {
        Ok(offset) => offset,
        Err(fault) => return Err(Fail::Fault(fault)),
    };
    let Ok(id) = Vec::from_slice(alloc, field_at(&row, columns.id)) else {
        return Err(Fail::NoMemory);
    };
    if found.insert(id, offset).is_err() {
        return Err(Fail::NoMemory);
    }
    Ok(())
}
