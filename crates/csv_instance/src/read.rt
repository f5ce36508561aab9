//! An instance file, read: as an instance, or as rows alone.

ghost use Rattle.std.specs.Prelude.{◌≡◌, ◌++◌, ◌≤◌, [], List, Ok, Err, IfOk, length};
ghost use Rattle.dsa_terms.specs.Buffers.{Buffer};
ghost use Rattle.dsa_model.specs.Fails.{UnlessNoMemory};
ghost use Rattle.dsa_model.specs.Limits.{file_limit};
ghost use Rattle.csv_instance.specs.Gives.{Gives};
ghost use Rattle.csv_instance.specs.Parse.{parse};
ghost use Rattle.csv_instance.specs.Records.{Record, table_of};
ghost use Rattle.csv_instance.specs.Rows.{parse_rows, values_of};

use crate::fault::InstanceFault;
use crate::growing::fill;
use crate::records::{first_record, records};
use crate::row_list::Rows;
use crate::table::Table;
use csv::ByteRecordsIntoIter;
use dsa_model::{Fail, NoMemory};
use std::alloc::Global;

/// No rows yet, with the first of the records as their header, or the fault of the header.
fn start_rows(
    alloc: Global,
    records: &mut ByteRecordsIntoIter<&[u8]>,
) -> Result<Rows, Fail<InstanceFault>>
    ensures { (left : List Record) → Gives records.old left → UnlessNoMemory result
        (λ rows. (parse rows ≡ Ok []) × (more : List Record) × (left ≡ rows ++ more)
        × Gives records.new more)
        (λ fault. (parse left ≡ Err fault) × (parse_rows left ≡ Err fault)) }
{
    match first_record(records) {
        Ok(Some(header)) => Rows::start(alloc, header),
        Ok(None) => Err(Fail::Fault(InstanceFault::NoHeader)),
        Err(NoMemory) => Err(Fail::NoMemory),
    }
}

/// The table of an instance file, or the file's first fault: that of the header, or else that of
/// the first row that has one. The caller owes at most 67108864 bytes. The form is MiniMalloc's,
/// with the columns `alignment`, `gaps` and `lowest` beside, and with columns that are carried.
pub fn read_instance(alloc: Global, bytes: &[u8]) -> Result<Table, Fail<InstanceFault>>
    requires { length bytes.now ≤ file_limit }
    ensures read { UnlessNoMemory result (λ table. table ≡ table_of bytes.now)
        (λ fault. parse (table_of bytes.now) ≡ Err fault) }
    ensures sound { IfOk result (λ table. (buffers : List Buffer) × (parse table ≡ Ok buffers)) }
{
    let mut records = records(alloc, bytes);
    let rows = start_rows(alloc, &mut records)?;
    let table = fill(alloc, Table::start(alloc, rows), records)?;
    let _instance = table.instance();
    Ok(table)
}

/// The rows of an instance file as they are read, or the first fault of the header and of all rows
/// that is none of a buffer: a row that can be read is accepted whatever its buffer would be. The
/// caller owes at most 67108864 bytes.
pub fn read_rows(alloc: Global, bytes: &[u8]) -> Result<Rows, Fail<InstanceFault>>
    requires { length bytes.now ≤ file_limit }
    ensures read { UnlessNoMemory result (λ rows. rows ≡ table_of bytes.now)
        (λ fault. parse_rows (table_of bytes.now) ≡ Err fault) }
    ensures sound { IfOk result (λ rows. parse_rows rows ≡ Ok (values_of rows)) }
{
    let mut records = records(alloc, bytes);
    let start = start_rows(alloc, &mut records)?;
    let rows = fill(alloc, start, records)?;
    let _count = rows.count();
    Ok(rows)
}
