//! A layout, written.

ghost use Rattle.std.specs.Prelude.{◌≡◌, ◌+◌, ◌∷◌, ◌++◌, [], ℕ, List, IfOk, OnOk, Ok, length, map};
ghost use Rattle.csv.specs.Records.{fields_of};
ghost use Rattle.csv.specs.Writing.{default_writer, row_text};
ghost use Rattle.csv_instance.specs.Layout.{layout_text, rows_with, text_of};
ghost use Rattle.csv_instance.specs.Wrote.{Wrote};
ghost use Rattle.csv_instance.specs.Offsets.{AreOffsets, ids_of, parsed_offsets};
ghost use Rattle.csv_instance.specs.Records.{table_of};

use crate::columns::{Column, column_name, field_at};
use crate::table::Table;
use crate::writing::{text_writer, write_fields, written_text};
use csv::{ByteRecord, Writer};
use dsa_model::NoMemory;
use std::alloc::Global;

/// The fields of a record.
pub(crate) fn all_fields<'a>(alloc: Global, row: &'a ByteRecord) -> Result<Vec<&'a [u8]>, NoMemory>
    ensures { IfOk result (λ v. map (λ f. f.now) v.items ≡ fields_of row.now) }
{
    let mut fields = Vec::new(alloc);
    for place in 0..row.len() {
        if fields.push(field_at(row, place)).is_err() {
            return Err(NoMemory);
        }
    }
    Ok(fields)
}

/// The fields of a record, and one more.
fn fields_and<'a>(
    alloc: Global,
    row: &'a ByteRecord,
    last: &'a [u8],
) -> Result<Vec<&'a [u8]>, NoMemory>
    ensures { IfOk result (λ v. map (λ f. f.now) v.items ≡ fields_of row.now ++ last.now ∷ []) }
{
    let mut fields = all_fields(alloc, row)?;
    if fields.push(last).is_err() {
        return Err(NoMemory);
    }
    Ok(fields)
}

/// Writes a record with one more field put last.
pub(crate) fn write_with(
    alloc: Global,
    writer: &mut Writer<Vec<u8>>,
    row: &ByteRecord,
    last: &[u8],
) -> Result<(), NoMemory>
    ensures { (text : List ℕ) → Wrote writer.old text → OnOk result
        (Wrote writer.new (text ++ row_text default_writer (fields_of row.now ++ last.now ∷ []))) }
{
    let fields = fields_and(alloc, row, last)?;
    write_fields(writer, fields.as_slice())
}

/// Writes each row with its offset in decimal put last. The caller owes an offset for each row.
fn write_offsets(
    alloc: Global,
    writer: &mut Writer<Vec<u8>>,
    rows: &[ByteRecord],
    offsets: &[u64],
) -> Result<(), NoMemory>
    requires { length rows.now ≡ length offsets.now }
    ensures { (text : List ℕ) → Wrote writer.old text → OnOk result
        (Wrote writer.new (text ++ text_of (rows_with (map fields_of rows.now) offsets.now))) }
{
    for place in 0..rows.len() {
        let mut digits = itoa::Buffer::new();
        let offset = digits.format(offsets[place]);
        write_with(alloc, writer, &rows[place], offset.as_bytes())?;
    }
    Ok(())
}

/// The text of a layout: the table's records as they were read, the header with the name `offset`
/// put last and each row with its offset in decimal put last. The caller owes as many offsets as
/// the table has buffers. Offsets of at most 2^60 are read back by `read_offsets`.
pub fn write_layout(alloc: Global, table: &Table, offsets: &[u64]) -> Result<Vec<u8>, NoMemory>
    requires { length table.now ≡ length offsets.now + 1 }
    ensures text { IfOk result (λ text. text.items ≡ layout_text table.now offsets.now) }
    ensures back { IfOk result (λ text. AreOffsets offsets.now
        → parsed_offsets (ids_of table.now) (table_of text.items) ≡ Ok offsets.now) }
{
    let (header, _, rows) = table.rows().records();
    let mut writer = text_writer(alloc);
    write_with(alloc, &mut writer, header, column_name(Column::Offset))?;
    write_offsets(alloc, &mut writer, rows, offsets)?;
    written_text(writer)
}
