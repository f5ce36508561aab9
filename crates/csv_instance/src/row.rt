//! A row of an instance file.

ghost use Rattle.std.specs.Prelude.{◌≡◌, ◌∷◌, ◌++◌, ◌≤◌, if◌then◌else◌, [], List, ℕ, Ok, Err, Some, None, IfOk, MatchResult, map, length, slice_index_or};
ghost use Rattle.csv.specs.Records.{fields_of};
ghost use Rattle.dsa_model.specs.Fails.{UnlessNoMemory};
ghost use Rattle.csv_instance.specs.Columns.{field_of};
ghost use Rattle.csv_instance.specs.Places.{column_places};
ghost use Rattle.csv_instance.specs.Records.{HasShortFields, Record};
ghost use Rattle.csv_instance.specs.Parse.{bad_column, number_or, row_buffer};
ghost use Rattle.csv_instance.specs.Row.{AreNumbers, length_fault};
ghost use Rattle.csv_instance.specs.RowSteps.{form_fault, id_fault};
ghost use Rattle.csv_instance.specs.Rows.{AreKeptValues, value_of};
ghost use Rattle.std.specs.List.{list_any};
ghost use Rattle.std.specs.Option.{option_map_or};
ghost use Rattle.std.specs.Str.{bytes_eq};
ghost use Rattle.dsa_model.specs.Buffer.{buffer_limit};
ghost use Rattle.dsa_model.specs.Limits.{time_limit};
ghost use Rattle.csv_instance.specs.declared.columns.Column.TheVariants.{Id};

use crate::columns::{Column, ColumnPlaces, field_under};
use crate::fault::InstanceFault;
use crate::gaps::read_gaps;
use csv::ByteRecord;
use dsa_model::{BUFFER_LIMIT, Fail, NoMemory, TIME_LIMIT, parse_number};
use indexmap::IndexSet;
use std::alloc::Global;

/// The greatest length of an id, in bytes.
const ID_LIMIT: usize = 255;

/// The first fault of a row's number, of how many fields it has beside the columns, and of how many
/// bytes its id has.
fn check_lengths(number: u32, columns: usize, fields: usize, id: usize) -> Option<InstanceFault>
    ensures { result ≡ length_fault number columns fields id }
{
    if number == BUFFER_LIMIT {
        Some(InstanceFault::TooManyBuffers)
    } else if fields != columns {
        Some(InstanceFault::FieldCount { row: number })
    } else if id == 0 {
        Some(InstanceFault::EmptyId { row: number })
    } else if id > ID_LIMIT {
        Some(InstanceFault::IdTooLong { row: number })
    } else {
        None
    }
}

/// The id of a row, or the first fault of its length and id.
pub(crate) fn read_id(
    alloc: Global,
    header: &ByteRecord,
    places: &ColumnPlaces,
    ids: &IndexSet<Vec<u8>>,
    rows: &Vec<ByteRecord>,
    row: &ByteRecord,
) -> Result<Vec<u8>, Fail<InstanceFault>>
    requires places { places.now ≡ column_places (fields_of header.now) }
    requires ids { map (λ k. k.items) ids.now.keys
        ≡ map (λ e. field_of (fields_of header.now) (fields_of e) Id) rows.now.items }
    requires few { length rows.now.items ≤ buffer_limit }
    ensures { let h = fields_of header.now in let before = map fields_of rows.now.items in
        UnlessNoMemory result
        (λ id. (id_fault h before (fields_of row.now) ≡ None)
        × (id.items ≡ field_of h (fields_of row.now) Id))
        (λ f. id_fault h before (fields_of row.now) ≡ Some f) }
{
    let number = rows.len() as u32;
    let id = field_under(row, places.id);
    let columns = header.len();
    let fields = row.len();
    if let Some(fault) = check_lengths(number, columns, fields, id.len()) {
        return Err(Fail::Fault(fault));
    }
    if let Some(earlier) = ids.get_index_of(id) {
        return Err(Fail::Fault(InstanceFault::DuplicateId {
            row: number,
            earlier: earlier as u32,
        }));
    }
    match Vec::from_slice(alloc, id) {
        Ok(id) => Ok(id),
        Err(_) => Err(Fail::NoMemory),
    }
}

/// Puts a row last, and its id unless it is there. A failure may leave one without the other.
pub(crate) fn keep(
    rows: &mut Vec<ByteRecord>,
    ids: &mut IndexSet<Vec<u8>>,
    id: Vec<u8>,
    row: ByteRecord,
) -> Result<(), NoMemory>
    ensures rows { IfOk result (λ _. rows.new.items ≡ rows.old.items ++ row ∷ []) }
    ensures ids { let keys = ids.old.keys in IfOk result (λ _. ids.new.keys
        ≡ (if list_any (λ k. bytes_eq id.items k.items) keys then keys else keys ++ id ∷ [])) }
{
    ids.insert(id)?;
    rows.push(row)?;
    Ok(())
}

/// The number of a row under a column that need not be there: the default where it gives none.
fn read_number_or(default: u64, row: &ByteRecord, place: Option<usize>) -> Option<u64>
    ensures { result ≡ number_or default
        (option_map_or (λ i. slice_index_or (fields_of row.now) i []) place []) }
{
    let field = field_under(row, place);
    if field.is_empty() {
        Some(default)
    } else {
        parse_number(field, TIME_LIMIT)
    }
}

/// The numbers of a row.
#[derive(Clone, Copy)]
pub(crate) struct Numbers {
    pub(crate) lower: u64,
    pub(crate) upper: u64,
    pub(crate) size: u64,
    pub(crate) alignment: u64,
    pub(crate) lowest: u64,
}

/// The numbers of a row, or the first column without one.
fn read_numbers(places: &ColumnPlaces, row: &ByteRecord) -> Result<Numbers, Column>
    ensures limits { IfOk result (λ n. (n.lower ≤ time_limit) × (n.upper ≤ time_limit)) }
    ensures numbers { let fields = fields_of row.now in
        (header : Record) → places.now ≡ column_places header
        → MatchResult result
        (λ n. (bad_column header fields ≡ None) × AreNumbers header fields n)
        (λ column. bad_column header fields ≡ Some column) }
{
    let Some(lower) = parse_number(field_under(row, places.lower), TIME_LIMIT) else {
        return Err(Column::Lower);
    };
    let Some(upper) = parse_number(field_under(row, places.upper), TIME_LIMIT) else {
        return Err(Column::Upper);
    };
    let Some(size) = parse_number(field_under(row, places.size), TIME_LIMIT) else {
        return Err(Column::Size);
    };
    let Some(alignment) = read_number_or(1, row, places.alignment) else {
        return Err(Column::Alignment);
    };
    let Some(lowest) = read_number_or(0, row, places.lowest) else {
        return Err(Column::Lowest);
    };
    Ok(Numbers {
        lower,
        upper,
        size,
        alignment,
        lowest,
    })
}

/// What a row says.
#[derive(Drop)]
pub(crate) struct RowValues {
    pub(crate) numbers: Numbers,
    pub(crate) gaps: Vec<(u64, u64)>,
}

/// What a row says, or the first fault of its numbers and its gaps.
pub(crate) fn read_values(
    alloc: Global,
    places: &ColumnPlaces,
    number: u32,
    row: &ByteRecord,
) -> Result<RowValues, Fail<InstanceFault>>
    requires { HasShortFields (fields_of row.now) }
    ensures value { let fields = fields_of row.now in (header : Record) →
        places.now ≡ column_places header → UnlessNoMemory result
        (λ v. (form_fault header number fields ≡ None) × (value_of v ≡ row_buffer header fields))
        (λ f. form_fault header number fields ≡ Some f) }
    ensures limits { IfOk result AreKeptValues }
{
    let numbers = match read_numbers(places, row) {
        Ok(numbers) => numbers,
        Err(column) => {
            return Err(Fail::Fault(InstanceFault::BadNumber {
                row: number,
                column,
            }));
        }
    };
    match read_gaps(alloc, field_under(row, places.gaps)) {
        Ok(Some(gaps)) => Ok(RowValues { numbers, gaps }),
        Ok(None) => Err(Fail::Fault(InstanceFault::BadGap { row: number })),
        Err(NoMemory) => Err(Fail::NoMemory),
    }
}
