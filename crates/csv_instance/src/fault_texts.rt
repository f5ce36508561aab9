//! The texts of faults, as they are printed.

ghost use Rattle.std.specs.Prelude.{◌≡◌, ◌++◌, OnOk, codes, decimal, string_bytes};
ghost use Rattle.dsa_model.specs.FaultTexts.{buffer_text};
ghost use Rattle.csv_instance.specs.Columns.{name_of};
ghost use Rattle.csv_instance.specs.FaultTexts.{instance_text, offsets_text, row_fault_text};

use crate::{Column, InstanceFault, OffsetsFault};
use dsa_model::{BufferFault, NoMemory};

/// Appends what is wrong.
fn append(text: &mut String, what: &str) -> Result<(), NoMemory>
    ensures { OnOk result (string_bytes text.new ≡ string_bytes text.old ++ what.now) }
{
    Ok(text.push_str(what)?)
}

/// Appends what is wrong with a column.
fn append_column(text: &mut String, what: &str, column: Column) -> Result<(), NoMemory>
    ensures { let column_text = codes " " ++ name_of column in OnOk result
        (string_bytes text.new ≡ string_bytes text.old ++ (what.now ++ column_text)) }
{
    Ok(write!(text, "{what} {}", column.name())?)
}

/// Appends a row and what is wrong with it.
fn append_row(text: &mut String, row: u32, what: &str) -> Result<(), NoMemory>
    ensures { OnOk result
        (string_bytes text.new ≡ string_bytes text.old ++ row_fault_text row what.now) }
{
    Ok(write!(text, "row {row} {what}")?)
}

/// Appends a row that has the id of an earlier one.
fn append_duplicate(text: &mut String, row: u32, earlier: u32) -> Result<(), NoMemory>
    ensures { let what = codes "duplicate id " ++ decimal earlier in OnOk result
        (string_bytes text.new ≡ string_bytes text.old ++ row_fault_text row what) }
{
    Ok(write!(text, "row {row} duplicate id {earlier}")?)
}

/// Appends a row and the column that has no number.
fn append_bad_number(text: &mut String, row: u32, column: Column) -> Result<(), NoMemory>
    ensures { let what = codes "bad number " ++ name_of column in OnOk result
        (string_bytes text.new ≡ string_bytes text.old ++ row_fault_text row what) }
{
    Ok(write!(text, "row {row} bad number {}", column.name())?)
}

/// Appends a row and what is wrong with its buffer.
fn append_bad_buffer(text: &mut String, row: u32, fault: BufferFault) -> Result<(), NoMemory>
    ensures { OnOk result
        (string_bytes text.new ≡ string_bytes text.old ++ row_fault_text row (buffer_text fault)) }
{
    write!(text, "row {row} ")?;
    fault.append_to(text)
}

/// Appends a buffer that has no row.
fn append_missing(text: &mut String, buffer: u32) -> Result<(), NoMemory>
    ensures { let buffer_id = codes "missing id " ++ decimal buffer in OnOk result
        (string_bytes text.new ≡ string_bytes text.old ++ buffer_id) }
{
    Ok(write!(text, "missing id {buffer}")?)
}

impl InstanceFault {
    /// Appends the text that is printed for the fault. Where memory runs out, nothing is known of
    /// `text`.
    pub fn append_to(self, text: &mut String) -> Result<(), NoMemory>
        ensures appended { OnOk result
            (string_bytes text.new ≡ string_bytes text.old ++ instance_text self) }
    {
        match self {
            InstanceFault::NoHeader => append(text, "no header"),
            InstanceFault::MarkedHeader => append(text, "marked header"),
            InstanceFault::DuplicateColumn { column } => {
                append_column(text, "duplicate column", column)
            }
            InstanceFault::OffsetColumn => append(text, "offset column"),
            InstanceFault::MissingColumn { column } => {
                append_column(text, "missing column", column)
            }
            InstanceFault::TooManyBuffers => append(text, "too many buffers"),
            InstanceFault::FieldCount { row } => append_row(text, row, "field count"),
            InstanceFault::EmptyId { row } => append_row(text, row, "empty id"),
            InstanceFault::IdTooLong { row } => append_row(text, row, "id too long"),
            InstanceFault::DuplicateId { row, earlier } => append_duplicate(text, row, earlier),
            InstanceFault::BadNumber { row, column } => append_bad_number(text, row, column),
            InstanceFault::BadGap { row } => append_row(text, row, "bad gap"),
            InstanceFault::BadBuffer { row, fault } => append_bad_buffer(text, row, fault),
        }
    }
}

impl OffsetsFault {
    /// Appends the text that is printed for the fault. Where memory runs out, nothing is known of
    /// `text`.
    pub fn append_to(self, text: &mut String) -> Result<(), NoMemory>
        ensures appended { OnOk result
            (string_bytes text.new ≡ string_bytes text.old ++ offsets_text self) }
    {
        match self {
            OffsetsFault::NoHeader => append(text, "no header"),
            OffsetsFault::DuplicateColumn { column } => {
                append_column(text, "duplicate column", column)
            }
            OffsetsFault::MissingColumn { column } => append_column(text, "missing column", column),
            OffsetsFault::FieldCount { row } => append_row(text, row, "field count"),
            OffsetsFault::UnknownId { row } => append_row(text, row, "unknown id"),
            OffsetsFault::DuplicateId { row, earlier } => append_duplicate(text, row, earlier),
            OffsetsFault::BadNumber { row } => append_row(text, row, "bad number offset"),
            OffsetsFault::MissingId { buffer } => append_missing(text, buffer),
        }
    }
}
