//! The report of what is read.

ghost use Rattle.std.specs.Prelude.{◌≡◌, Ok, IfOk};
ghost use Rattle.dsa_terms.specs.Buffers.{Instance as InstanceTerm};
ghost use Rattle.csv_instance.specs.Parse.{parse};
ghost use Rattle.column_report.specs.Report.{inspect_text};

use crate::columns::columns_text;
use crate::counts::{counts_line, counts_of};
use csv_instance::Table;
use dsa_model::NoMemory;
use std::alloc::Global;

/// The report of what is read of an instance file. The first line is
/// `buffers N of 4096 aligned A gaps G lowest F`: how many buffers there are, of how many that
/// there may be, and how many of them have an alignment above 1, a gap, and a lowest above 0. Then
/// comes a CSV table `column,meaning` with a row for each column of the header, in order: its name,
/// and the column of `Column` as which it is read, or `carried` where it is none.
pub fn column_report(alloc: Global, table: &Table) -> Result<Vec<u8>, NoMemory>
    ensures text { IfOk result (λ text. (I : InstanceTerm) → parse table.now ≡ Ok I →
        text.items ≡ inspect_text table.now I) }
{
    let counts = counts_of(table.instance());
    let mut text = counts_line(alloc, &counts)?.into_bytes();
    let columns = columns_text(alloc, table)?;
    text.extend_from_slice(&columns)?;
    Ok(text)
}
