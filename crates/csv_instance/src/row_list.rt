//! The rows of an instance file as they are read.

ghost use Rattle.std.specs.Prelude.{◌≡◌, ◌∷◌, ◌++◌, ◌+◌, ◌<◌, ◌≤◌, ◌^◌, [], List, Ok, Err, None, Some, IfOk, length, map};
ghost use Rattle.csv.specs.Records.{fields_of};
ghost use Rattle.dsa_terms.specs.Buffers.{buffer};
ghost use Rattle.dsa_model.specs.Buffer.{IsBuffer, buffer_fault, buffer_limit};
ghost use Rattle.dsa_model.specs.Fails.{UnlessNoMemory};
ghost use Rattle.dsa_model.specs.Limits.{time_limit};
ghost use Rattle.csv_instance.specs.KeptRows.{AreKept};
ghost use Rattle.csv_instance.specs.Offsets.{ids_of};
ghost use Rattle.csv_instance.specs.Parse.{header_fault};
ghost use Rattle.csv_instance.specs.Places.{column_places};
ghost use Rattle.csv_instance.specs.Gives.{GaveRecord};
ghost use Rattle.csv_instance.specs.Records.{HasShortFields, Record};
ghost use Rattle.csv_instance.specs.Rows.{AreKeptValues, parse_rows, value_of, values_of};

use crate::columns::{ColumnPlaces, find_columns};
use crate::fault::InstanceFault;
use crate::growing::Grows;
use crate::header::check_header;
use crate::row::{RowValues, keep, read_id, read_values};
use csv::ByteRecord;
use dsa_model::{Buffer, BufferFault, Fail, NoMemory};
use indexmap::IndexSet;
use std::alloc::Global;
use std::marker::Model;

/// The records of an instance file whose rows can be read, whatever buffers they tell of. A
/// contract sees the list of the records, the header first.
#[derive(Drop)]
pub struct Rows {
    header: ByteRecord,
    places: ColumnPlaces,
    rows: Vec<ByteRecord>,
    ids: IndexSet<Vec<u8>>,
    values: Vec<RowValues>,
}

impl Model for Rows {
    ghost use Rattle.std.specs.Prelude.{List};
    ghost use Rattle.csv_instance.specs.Records.{Record};

    ghost Value = { List Record };

    ghost use Rattle.csv_instance.specs.KeptRows.{records_of, IsKeptRows};

    ghost view = { records_of };

    ghost invariant = { IsKeptRows };
}

impl Rows {
    /// No rows yet, or the header's fault.
    pub(crate) fn start(alloc: Global, header: ByteRecord) -> Result<Rows, Fail<InstanceFault>>
        ensures { let h = fields_of header in UnlessNoMemory result
            (λ rows. (rows ≡ h ∷ []) × (header_fault h ≡ None)) (λ f. header_fault h ≡ Some f) }
    {
        if let Some(fault) = check_header(&header) {
            return Err(Fail::Fault(fault));
        }
        let places = find_columns(&header);
        Ok(Rows {
            header,
            places,
            rows: Vec::new(alloc),
            ids: IndexSet::new(alloc),
            values: Vec::new(alloc),
        })
    }

    /// The header, where its columns stand, and the rows.
    pub(crate) fn records(&self) -> (&ByteRecord, &ColumnPlaces, &[ByteRecord])
        ensures records { self.now ≡ fields_of result.0.now ∷ map fields_of result.2.now }
        ensures places { result.1.now ≡ column_places (fields_of result.0.now) }
        ensures parsed { parse_rows self.now ≡ Ok (values_of self.now) }
        ensures few { length result.2.now ≤ buffer_limit }
    {
        (&self.header, &self.places, self.rows.as_slice())
    }

    /// The ids of the rows, in order.
    pub(crate) fn ids(&self) -> &IndexSet<Vec<u8>>
        ensures ids { map (λ k. k.items) result.now.keys ≡ ids_of self.now }
        ensures few { length result.now.keys ≤ buffer_limit }
    {
        &self.ids
    }

    /// What a row says. The caller owes that `r` is below the count of rows.
    fn row(&self, r: u32) -> &RowValues
        requires { r + 1 < length self.now }
        ensures value { buffer (values_of self.now) r ≡ value_of result.now }
        ensures limits { AreKeptValues result.now }
    {
        &self.values[r as usize]
    }

    /// The buffer that a row tells of, or what is wrong with it. The caller owes that `r` is below
    /// the count of rows.
    pub(crate) fn buffer(&self, alloc: Global, r: u32) -> Result<Buffer, Fail<BufferFault>>
        requires { r + 1 < length self.now }
        ensures { let b = buffer (values_of self.now) r in UnlessNoMemory result
            (λ made. (made ≡ b) × IsBuffer b) (λ fault. buffer_fault b ≡ Some fault) }
    {
        let RowValues { numbers, gaps } = self.row(r);
        Buffer::new(
            alloc,
            numbers.lower,
            numbers.upper,
            numbers.size,
            numbers.alignment,
            gaps,
            numbers.lowest,
        )
    }

    /// The number of rows, at most `BUFFER_LIMIT` of the crate `dsa_model`.
    pub fn count(&self) -> u32
        ensures value { length self.now ≡ result + 1 }
        ensures parsed { parse_rows self.now ≡ Ok (values_of self.now) }
        ensures limit { result ≤ buffer_limit }
    {
        self.values.len() as u32
    }

    /// The moment under `lower` in a row. The caller owes that `r` is below the count of rows.
    pub fn lower(&self, r: u32) -> u64
        requires { r + 1 < length self.now }
        ensures value { result ≡ (buffer (values_of self.now) r).lower }
        ensures limit { result ≤ time_limit }
    {
        self.row(r).numbers.lower
    }

    /// The moment under `upper` in a row. The caller owes that `r` is below the count of rows.
    pub fn upper(&self, r: u32) -> u64
        requires { r + 1 < length self.now }
        ensures value { result ≡ (buffer (values_of self.now) r).upper }
        ensures limit { result ≤ time_limit }
    {
        self.row(r).numbers.upper
    }

    /// The number under `size` in a row, in bytes. The caller owes that `r` is below the count of
    /// rows.
    pub fn size(&self, r: u32) -> u64
        requires { r + 1 < length self.now }
        ensures value { result ≡ (buffer (values_of self.now) r).size }
    {
        self.row(r).numbers.size
    }

    /// The number under `alignment` in a row, and 1 where it has none there. The caller owes that
    /// `r` is below the count of rows.
    pub fn alignment(&self, r: u32) -> u64
        requires { r + 1 < length self.now }
        ensures value { result ≡ (buffer (values_of self.now) r).alignment }
    {
        self.row(r).numbers.alignment
    }

    /// The number under `lowest` in a row, in bytes, and 0 where it has none there. The caller owes
    /// that `r` is below the count of rows.
    pub fn lowest(&self, r: u32) -> u64
        requires { r + 1 < length self.now }
        ensures value { result ≡ (buffer (values_of self.now) r).lowest }
    {
        self.row(r).numbers.lowest
    }

    /// The gaps of a row as they were written, each by its first moment and the one after its last;
    /// fewer than 2^31. The caller owes that `r` is below the count of rows.
    pub fn gaps(&self, r: u32) -> &[(u64, u64)]
        requires { r + 1 < length self.now }
        ensures value { result.now ≡ (buffer (values_of self.now) r).gaps }
        ensures few { length result.now < 2 ^ 31 }
    {
        self.row(r).gaps.as_slice()
    }
}

impl Grows for Rows {
    ghost records = { λ t. t };

    ghost parsed = { parse_rows };

    /// As the trait says.
    fn with_next(
        self,
        alloc: Global,
        row: Result<ByteRecord, csv::Error>,
    ) -> Result<Rows, Fail<InstanceFault>> {
        let Ok(row) = row else {
            return Err(Fail::NoMemory);
        };
        let Rows {
            header,
            places,
            mut rows,
            mut ids,
            mut values,
        } = self;
        match add_row(
            alloc,
            &header,
            &places,
            &mut rows,
            &mut ids,
            &mut values,
            row,
        ) {
            Ok(()) => Ok(Rows {
                header,
                places,
                rows,
                ids,
                values,
            }),
            Err(failure) => Err(failure),
        }
    }
}

/// Puts a row last, with its id and what it says, or tells the row's fault. After a failure some of
/// them may be there without the others.
fn add_row(
    alloc: Global,
    header: &ByteRecord,
    places: &ColumnPlaces,
    rows: &mut Vec<ByteRecord>,
    ids: &mut IndexSet<Vec<u8>>,
    values: &mut Vec<RowValues>,
    row: ByteRecord,
) -> Result<(), Fail<InstanceFault>>
    requires kept { AreKept header.now places.now rows.old.items ids.old.keys values.old.items }
    requires short { HasShortFields (fields_of row) }
    ensures { let before = fields_of header.now ∷ map fields_of rows.old.items in
        UnlessNoMemory result
        (λ _. AreKept header.now places.now rows.new.items ids.new.keys values.new.items
        × (rows.new.items ≡ rows.old.items ++ row ∷ []))
        (λ f. (rest : List Record) → parse_rows (before ++ fields_of row ∷ rest) ≡ Err f) }
{
    let id = match read_id(alloc, header, places, ids, rows, &row) {
        Ok(id) => id,
        Err(failure) => return Err(failure),
    };
    let number = rows.len() as u32;
    let value = match read_values(alloc, places, number, &row) {
        Ok(value) => value,
        Err(failure) => return Err(failure),
    };
    if values.push(value).is_err() {
        return Err(Fail::NoMemory);
    }
    match keep(rows, ids, id, row) {
        Ok(()) => Ok(()),
        Err(NoMemory) => Err(Fail::NoMemory),
    }
}
