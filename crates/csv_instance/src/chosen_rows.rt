//! Some rows of an instance, written.

ghost use Rattle.std.specs.Prelude.{◌≡◌, ◌+◌, ◌<◌, ◌++◌, ℕ, List, All, IfOk, OnOk, Ok, length, map};
ghost use Rattle.csv.specs.Records.{fields_of};
ghost use Rattle.dsa_terms.specs.Buffers.{Buffer as BufferTerm};
ghost use Rattle.dsa_terms.specs.Claims.{Rises};
ghost use Rattle.dsa_model.specs.Chosen.{some_of};
ghost use Rattle.csv_instance.specs.Chosen.{chosen_records, chosen_text, rows_at};
ghost use Rattle.csv_instance.specs.Layout.{text_of};
ghost use Rattle.csv_instance.specs.Parse.{parse};
ghost use Rattle.csv_instance.specs.Records.{table_of};
ghost use Rattle.csv_instance.specs.Wrote.{Wrote};

use crate::table::Table;
use crate::writing::{text_writer, write_record, written_text};
use csv::{ByteRecord, Writer};
use dsa_model::NoMemory;
use std::alloc::Global;

/// Writes the rows of these numbers. The caller owes numbers below the count of rows.
fn write_members(
    writer: &mut Writer<Vec<u8>>,
    rows: &[ByteRecord],
    members: &[u32],
) -> Result<(), NoMemory>
    requires { All (λ b. b < length rows.now) members.now }
    ensures { (text : List ℕ) → Wrote writer.old text → OnOk result
        (Wrote writer.new (text ++ text_of (rows_at (map fields_of rows.now) members.now))) }
{
    for &member in members {
        write_record(writer, &rows[member as usize])?;
    }
    Ok(())
}

/// The text of the rows of these buffers under the table's header, each record as it was read. It
/// is an instance file of these buffers, in this order.
///
/// The caller owes numbers that rise and are below the count of buffers.
pub fn write_rows(alloc: Global, table: &Table, members: &[u32]) -> Result<Vec<u8>, NoMemory>
    requires rises { Rises members.now }
    requires in_range { All (λ b. b + 1 < length table.now) members.now }
    ensures text { IfOk result (λ text. text.items ≡ chosen_text table.now members.now) }
    ensures back { IfOk result (λ text.
        table_of text.items ≡ chosen_records table.now members.now) }
    ensures parsed { IfOk result (λ text. (I : List BufferTerm) → parse table.now ≡ Ok I →
        parse (table_of text.items) ≡ Ok (some_of I members.now)) }
{
    let (header, _, rows) = table.rows().records();
    let mut writer = text_writer(alloc);
    write_record(&mut writer, header)?;
    write_members(&mut writer, rows, members)?;
    written_text(writer)
}
