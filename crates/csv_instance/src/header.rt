//! The header of an instance file.

ghost use Rattle.std.specs.Prelude.{◌≡◌, ◌≤◌, find, not, Bool};
ghost use Rattle.csv.specs.Records.{fields_of};
ghost use Rattle.csv_instance.specs.Columns.{has_column, needed_columns, stands_twice};
ghost use Rattle.csv_instance.specs.Parse.{header_fault};

use crate::columns::{Column, NAMED, column_name, field_at, find_column};
use crate::fault::InstanceFault;
use csv::ByteRecord;

/// The columns that an instance needs.
const NEEDED: [Column; 4] = [Column::Id, Column::Lower, Column::Upper, Column::Size];

/// Whether a column stands twice.
fn is_twice(header: &ByteRecord, column: Column) -> bool
    ensures { result ≡ stands_twice (fields_of header.now) column }
{
    let name = column_name(column);
    let mut count: usize = 0;
    for place in 0..header.len() {
        if name == field_at(header, place) {
            count += 1;
        }
    }
    count >= 2
}

/// The first of the columns that stands twice.
pub(crate) fn first_twice(header: &ByteRecord, columns: &[Column]) -> Option<Column>
    ensures { result ≡ find (stands_twice (fields_of header.now)) columns.now }
{
    columns
        .iter()
        .copied()
        .find(|column| is_twice(header, *column))
}

/// The first column that is missing.
fn first_missing(header: &ByteRecord) -> Option<Column>
    ensures { result ≡ find (λ c. not (has_column (fields_of header.now) c)) needed_columns }
{
    NEEDED
        .iter()
        .copied()
        .find(|column| find_column(header, *column).is_none())
}

/// The first fault of a header.
pub(crate) fn check_header(header: &ByteRecord) -> Option<InstanceFault>
    ensures { result ≡ header_fault (fields_of header.now) }
{
    if field_at(header, 0).starts_with(b"\xEF\xBB\xBF") {
        return Some(InstanceFault::MarkedHeader);
    }
    if let Some(column) = first_twice(header, &NAMED) {
        return Some(InstanceFault::DuplicateColumn { column });
    }
    if find_column(header, Column::Offset).is_some() {
        return Some(InstanceFault::OffsetColumn);
    }
    match first_missing(header) {
        Some(column) => Some(InstanceFault::MissingColumn { column }),
        None => None,
    }
}
