//! Records, written into memory.

ghost use Rattle.std.specs.Prelude.{◌≡◌, ◌++◌, [], List, ℕ, IfOk, OnOk, map};
ghost use Rattle.csv.specs.Records.{fields_of};
ghost use Rattle.csv.specs.Writing.{default_writer, row_text};
ghost use Rattle.csv_instance.specs.Wrote.{Wrote};

use csv::{ByteRecord, Writer, WriterBuilder};
use dsa_model::NoMemory;
use std::alloc::Global;

/// A writer into memory that has written nothing.
pub fn text_writer(alloc: Global) -> Writer<Vec<u8>>
    ensures { Wrote result [] }
{
    WriterBuilder::new().from_writer(Vec::new(alloc))
}

/// Writes a record as it is; after want of memory part of it may have been written.
pub(crate) fn write_record(writer: &mut Writer<Vec<u8>>, row: &ByteRecord) -> Result<(), NoMemory>
    ensures { (text : List ℕ) → Wrote writer.old text → OnOk result
        (Wrote writer.new (text ++ row_text default_writer (fields_of row.now))) }
{
    match writer.write_byte_record(row) {
        Ok(()) => Ok(()),
        Err(_) => Err(NoMemory),
    }
}

/// Writes the record of these fields. The caller owes that it has as many fields as the first that
/// was written, or want of memory is answered; after it part of the record may have been written.
pub fn write_fields(writer: &mut Writer<Vec<u8>>, fields: &[&[u8]]) -> Result<(), NoMemory>
    ensures { (text : List ℕ) → Wrote writer.old text → OnOk result
        (Wrote writer.new (text ++ row_text default_writer (map (λ f. f.now) fields.now))) }
{
    match writer.write_fields(fields) {
        Ok(()) => Ok(()),
        Err(_) => Err(NoMemory),
    }
}

/// The text that a writer into memory has written.
pub fn written_text(writer: Writer<Vec<u8>>) -> Result<Vec<u8>, NoMemory>
    ensures { (text : List ℕ) → Wrote writer text → IfOk result (λ made. made.items ≡ text) }
{
    match writer.into_inner() {
        Ok(text) => Ok(text),
        Err(_) => Err(NoMemory),
    }
}
