//! What each column of a header means.

ghost use Rattle.std.specs.Prelude.{◌≡◌, ◌++◌, ◌∷◌, [], ℕ, List, IfOk, OnOk};
ghost use Rattle.csv.specs.Writing.{default_writer, row_text};
ghost use Rattle.csv_instance.specs.Records.{header_of};
ghost use Rattle.csv_instance.specs.Wrote.{Wrote};
ghost use Rattle.column_report.specs.Columns.{columns_text, meaning_of};

use csv::Writer;
use csv_instance::{Column, Table, text_writer, write_fields, written_text};
use dsa_model::NoMemory;
use std::alloc::Global;

/// What a column of this name means: its name, or `carried` where it has no meaning.
fn meaning(name: &[u8]) -> &'static str
    ensures { result.now ≡ meaning_of name.now }
{
    match Column::named(name) {
        Some(column) => column.name(),
        None => "carried",
    }
}

/// Writes a row of two fields.
fn write_row(writer: &mut Writer<Vec<u8>>, name: &[u8], meaning: &[u8]) -> Result<(), NoMemory>
    ensures { (text : List ℕ) → Wrote writer.old text → OnOk result
        (Wrote writer.new (text ++ row_text default_writer (name.now ∷ meaning.now ∷ []))) }
{
    write_fields(writer, &[name, meaning])
}

/// A row for each column of the table's header, in order, below the names of the two fields.
pub(crate) fn columns_text(alloc: Global, table: &Table) -> Result<Vec<u8>, NoMemory>
    ensures { IfOk result (λ text. text.items ≡ columns_text (header_of table.now)) }
{
    let mut writer = text_writer(alloc);
    write_row(&mut writer, b"column", b"meaning")?;
    for place in 0..table.columns() {
        let name = table.column_name(place);
        write_row(&mut writer, name, meaning(name).as_bytes())?;
    }
    written_text(writer)
}
