//! The text of a report.

ghost use Rattle.std.specs.Prelude.{◌≡◌, ◌+◌, ◌<◌, ◌++◌, IfOk, length, string_bytes};
ghost use Rattle.std.specs.List.{All};
ghost use Rattle.std.specs.Option.{ForSome};
ghost use Rattle.csv_instance.specs.Offsets.{ids_of};
ghost use Rattle.layout_report.specs.Report.{id_of, moment_line, peak_line, rows_text};

use crate::row::Row;
use csv::WriterBuilder;
use csv_instance::{Table, write_fields, written_text};
use dsa_model::NoMemory;
use std::alloc::Global;

/// The line of a moment and its load, with a height.
fn moment_line(alloc: Global, moment: &str, load: &str, height: u64) -> Result<String, NoMemory>
    ensures { IfOk result (λ line. string_bytes line ≡ moment_line moment.now load.now height) }
{
    Ok(format!(in alloc; "moment {moment} load {load} height {height}\n")?)
}

/// The line of the peak and its load, with the layout's height.
pub(crate) fn peak_line(
    alloc: Global,
    peak: Option<(u64, u64)>,
    height: u64,
) -> Result<String, NoMemory>
    ensures { IfOk result (λ line. string_bytes line ≡ peak_line peak height) }
{
    match peak {
        Some((moment, load)) => {
            let mut moment_digits = itoa::Buffer::new();
            let mut load_digits = itoa::Buffer::new();
            let moment = moment_digits.format(moment);
            let load = load_digits.format(load);
            moment_line(alloc, moment, load, height)
        }
        None => moment_line(alloc, "none", "0", height),
    }
}

/// The bytes of the buffer's id, and none for a free range.
fn id_of(table: &Table, buffer: Option<u32>) -> &[u8]
    requires { ForSome buffer (λ b. b + 1 < length table.now) }
    ensures { result.now ≡ id_of (ids_of table.now) buffer }
{
    match buffer {
        Some(b) => table.id(b),
        None => &[],
    }
}

/// The line, and below it the rows with the names of their fields.
pub(crate) fn report_text(
    alloc: Global,
    table: &Table,
    line: String,
    rows: &[Row],
) -> Result<Vec<u8>, NoMemory>
    requires { All (λ row. ForSome row.buffer (λ b. b + 1 < length table.now)) rows.now }
    ensures { IfOk result (λ text.
        text.items ≡ string_bytes line ++ rows_text (ids_of table.now) rows.now) }
{
    let mut writer = WriterBuilder::new().from_writer(line.into_bytes());
    let names: [&[u8]; 3] = [b"place", b"size", b"id"];
    write_fields(&mut writer, &names)?;
    for row in rows {
        let mut place = itoa::Buffer::new();
        let mut size = itoa::Buffer::new();
        let place = place.format(row.place);
        let size = size.format(row.size);
        let fields = [place.as_bytes(), size.as_bytes(), id_of(table, row.buffer)];
        write_fields(&mut writer, &fields)?;
    }
    written_text(writer)
}
