//! The instance of a trace, written.

ghost use Rattle.std.specs.Prelude.{◌≡◌, ◌≤◌, ◌<◌, ◌++◌, IfOk, OnOk, List, Ok, length, ℕ};
ghost use Rattle.dsa_model.specs.Limits.{file_limit};
ghost use Rattle.csv.specs.Writing.{default_writer, row_text};
ghost use Rattle.csv_instance.specs.Parse.{parse};
ghost use Rattle.csv_instance.specs.Records.{table_of};
ghost use Rattle.csv_instance.specs.Wrote.{Wrote};
ghost use Rattle.trace_import.specs.ImportText.{import_header, import_row, import_text};
ghost use Rattle.trace_import.specs.Traces.{IsTraced, imported};

use crate::ends::ends;
use crate::line::Line;
use crate::trace::Trace;
use csv::Writer;
use csv_instance::{text_writer, write_fields, written_text};
use dsa_model::NoMemory;
use std::alloc::Global;

/// A writer that has written the names of the columns.
fn start(alloc: Global) -> Result<Writer<Vec<u8>>, NoMemory>
    ensures { IfOk result (λ writer. Wrote writer (row_text default_writer import_header)) }
{
    let mut writer = text_writer(alloc);
    let names: [&[u8]; 6] = [b"id", b"lower", b"upper", b"size", b"alignment", b"name"];
    write_fields(&mut writer, &names)?;
    Ok(writer)
}

/// Writes the row of an allocation, from its line to its end.
fn write_row(
    alloc: Global,
    writer: &mut Writer<Vec<u8>>,
    line: u32,
    end: u32,
    size: u64,
    alignment: u64,
    id: &[u8],
) -> Result<(), NoMemory>
    ensures { (text : List ℕ) → Wrote writer.old text → OnOk result (Wrote writer.new
        (text ++ row_text default_writer (import_row line end size alignment id.now))) }
{
    let own = format!(in alloc; "a{line}")?;
    let mut lower = itoa::Buffer::new();
    let mut upper = itoa::Buffer::new();
    let mut bytes = itoa::Buffer::new();
    let mut multiple = itoa::Buffer::new();
    let fields: [&[u8]; 6] = [
        own.as_bytes(),
        lower.format(line).as_bytes(),
        upper.format(end).as_bytes(),
        bytes.format(size).as_bytes(),
        multiple.format(alignment).as_bytes(),
        id,
    ];
    write_fields(writer, &fields)
}

/// The instance of a trace, as an instance file: the columns `id`, `lower`, `upper`, `size`,
/// `alignment` and `name`, and a row for each line that allocates, in order. Moments are the
/// numbers of lines. `id` is `a` and the line's number, `lower` that number, `upper` the number of
/// the line that frees the identifier next, or else the count of lines, and `name` the identifier.
pub fn import(alloc: Global, trace: &Trace) -> Result<Vec<u8>, NoMemory>
    ensures text { IfOk result (λ text. text.items ≡ import_text trace.now) }
    ensures parsed { IfOk result (λ text. parse (table_of text.items) ≡ Ok (imported trace.now)) }
    ensures short { IfOk result (λ text. length text.items ≤ file_limit) }
    ensures traced { IsTraced trace.now (imported trace.now) }
{
    let lines = trace.kept();
    let ends = ends(alloc, lines)?;
    let mut writer = start(alloc)?;
    for place in 0..lines.len() {
        if let Line::Alloc {
            id,
            size,
            alignment,
        } = &lines[place]
        {
            let (line, end) = (place as u32, ends[place]);
            write_row(
                alloc,
                &mut writer,
                line,
                end,
                *size,
                *alignment,
                id.as_slice(),
            )?;
        }
    }
    written_text(writer)
}
