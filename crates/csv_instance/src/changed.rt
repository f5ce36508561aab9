//! Rows of an instance file, written again with other moments and one gap more.

ghost use Rattle.std.specs.Prelude.{◌≡◌, ◌+◌, ◌<◌, ◌≤◌, ◌++◌, ◌∷◌, [], ℕ, List, All, IfOk, OnOk, Ok, None, Some, cond, length, map, option_map, set};
ghost use Rattle.std.specs.Fmt.{decimal};
ghost use Rattle.std.specs.Option.{option_map_or};
ghost use Rattle.csv.specs.Records.{fields_of};
ghost use Rattle.csv.specs.Writing.{default_writer, row_text};
ghost use Rattle.dsa_terms.specs.Claims.{Rises};
ghost use Rattle.csv_instance.specs.Changed.{AreFrom, AreMoments, Change as ChangeTerm, carried, change_of, changed_numbers, changed_records, changed_row, changed_text, changed_values, gap_added, with_field, with_gaps};
ghost use Rattle.csv_instance.specs.Places.{column_places};
ghost use Rattle.csv_instance.specs.Records.{Record, table_of};
ghost use Rattle.csv_instance.specs.Rows.{parse_rows, values_of};
ghost use Rattle.csv_instance.specs.Wrote.{Wrote};
ghost use Rattle.csv_instance.specs.declared.columns.Column.TheVariants.{Lower, Upper};

use crate::columns::{Column, ColumnPlaces, column_name, field_under};
use crate::layout::{all_fields, write_with};
use crate::row_list::Rows;
use crate::writing::{text_writer, write_fields, write_record, written_text};
use csv::{ByteRecord, Writer};
use dsa_model::NoMemory;
use std::alloc::Global;

/// A row's number, its new lower and its new upper, and the two ends of a gap that is put after its
/// others.
type Change = (u32, u64, u64, u64, u64);

/// A field of gaps with one more, put after the others.
fn with_gap(alloc: Global, field: &[u8], from: u64, to: u64) -> Result<Vec<u8>, NoMemory>
    ensures { IfOk result (λ text. text.items ≡ gap_added field.now from to) }
{
    let mut text = Vec::from_slice(alloc, field)?;
    if !text.is_empty() {
        text.push(b' ')?;
    }
    let mut digits = itoa::Buffer::new();
    text.extend_from_slice(digits.format(from).as_bytes())?;
    text.push(b'-')?;
    let mut digits = itoa::Buffer::new();
    text.extend_from_slice(digits.format(to).as_bytes())?;
    Ok(text)
}

/// Puts another field at a place, where there is that place.
fn put_at<'a>(fields: &mut Vec<&'a [u8]>, place: Option<usize>, field: &'a [u8])
    ensures { let was = map (λ f. f.now) fields.old.items in map (λ f. f.now) fields.new.items
        ≡ option_map_or (λ i. set was i field.now) place was }
{
    let Some(place) = place else {
        return;
    };
    if place < fields.len() {
        fields[place] = field;
    }
}

/// The fields of a row with other fields of moments and of gaps.
fn changed_fields<'a>(
    alloc: Global,
    places: &ColumnPlaces,
    row: &'a ByteRecord,
    lower: &'a [u8],
    upper: &'a [u8],
    gaps: &'a [u8],
) -> Result<Vec<&'a [u8]>, NoMemory>
    ensures { (header : Record) → places.now ≡ column_places header → IfOk result
        (λ v. map (λ f. f.now) v.items ≡ with_gaps header gaps.now
        (with_field header Upper upper.now
        (with_field header Lower lower.now (fields_of row.now)))) }
{
    let mut fields = all_fields(alloc, row)?;
    put_at(&mut fields, places.lower, lower);
    put_at(&mut fields, places.upper, upper);
    if places.gaps.is_some() {
        put_at(&mut fields, places.gaps, gaps);
    } else if fields.push(gaps).is_err() {
        return Err(NoMemory);
    }
    Ok(fields)
}

/// Writes a row after its change.
fn write_change(
    alloc: Global,
    writer: &mut Writer<Vec<u8>>,
    places: &ColumnPlaces,
    row: &ByteRecord,
    change: &Change,
) -> Result<(), NoMemory>
    ensures { (header : Record) → places.now ≡ column_places header → (text : List ℕ) →
        Wrote writer.old text → OnOk result (Wrote writer.new
        (text ++ row_text default_writer
        (changed_row header (Some change.now) (fields_of row.now)))) }
{
    let (_, lower, upper, from, to) = *change;
    let mut lower_digits = itoa::Buffer::new();
    let mut upper_digits = itoa::Buffer::new();
    let lower = lower_digits.format(lower);
    let upper = upper_digits.format(upper);
    let gaps = with_gap(alloc, field_under(row, places.gaps), from, to)?;
    let fields = changed_fields(
        alloc,
        places,
        row,
        lower.as_bytes(),
        upper.as_bytes(),
        gaps.as_slice(),
    )?;
    write_fields(writer, fields.as_slice())
}

/// Writes a record with one more field put last where it has no field of gaps.
fn write_carried(
    alloc: Global,
    writer: &mut Writer<Vec<u8>>,
    places: &ColumnPlaces,
    row: &ByteRecord,
    gaps: &[u8],
) -> Result<(), NoMemory>
    ensures { (header : Record) → places.now ≡ column_places header → (text : List ℕ) →
        Wrote writer.old text → OnOk result (Wrote writer.new
        (text ++ row_text default_writer (carried header gaps.now (fields_of row.now)))) }
{
    if places.gaps.is_some() {
        write_record(writer, row)
    } else {
        write_with(alloc, writer, row, gaps)
    }
}

/// The change of a row, where it is the first of those that are left.
fn first_change(left: &[Change], number: u32) -> Option<Change>
    ensures { AreFrom number left.now → result ≡ change_of left.now number }
{
    match left.first() {
        Some(change) => {
            if change.0 == number {
                Some(*change)
            } else {
                None
            }
        }
        None => None,
    }
}

/// The text of the header and the rows as they were read, but for these changes: a row with a
/// change has its new moments, and one gap more after its others. Where there is no column of gaps
/// it is put last, and a row without a change has an empty field there.
///
/// The caller owes rows of changes that rise and are below the count of rows.
pub fn write_changed(
    alloc: Global,
    rows: &Rows,
    changes: &[(u32, u64, u64, u64, u64)],
) -> Result<Vec<u8>, NoMemory>
    requires rises { Rises (changed_numbers changes.now) }
    requires in_range { All (λ (c : ChangeTerm). c.0 + 1 < length rows.now) changes.now }
    ensures text { IfOk result (λ text. text.items ≡ changed_text rows.now changes.now) }
    ensures back { IfOk result (λ text.
        table_of text.items ≡ changed_records rows.now changes.now) }
    ensures parsed { IfOk result (λ text. AreMoments changes.now →
        parse_rows (table_of text.items) ≡ Ok (changed_values changes.now (values_of rows.now))) }
{
    let (header, places, records) = rows.records();
    let mut writer = text_writer(alloc);
    write_carried(
        alloc,
        &mut writer,
        places,
        header,
        column_name(Column::Gaps),
    )?;
    let mut next: usize = 0;
    for place in 0..records.len() {
        match first_change(&changes[next..], place as u32) {
            Some(change) => {
                write_change(alloc, &mut writer, places, &records[place], &change)?;
                next += 1;
            }
            None => write_carried(alloc, &mut writer, places, &records[place], b"")?,
        }
    }
    written_text(writer)
}
