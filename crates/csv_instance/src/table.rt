//! An instance file that was read.

ghost use Rattle.std.specs.Prelude.{◌≡◌, ◌∷◌, ◌++◌, ◌+◌, ◌<◌, ◌≤◌, [], List, Ok, Err, IfOk, length, slice_index_or};
ghost use Rattle.csv.specs.Records.{fields_of};
ghost use Rattle.dsa_terms.specs.Buffers.{Buffer as BufferTerm};
ghost use Rattle.dsa_model.specs.Fails.{UnlessNoMemory};
ghost use Rattle.csv_instance.specs.Gives.{GaveRecord};
ghost use Rattle.csv_instance.specs.Records.{HasShortFields, Record, header_of};
ghost use Rattle.csv_instance.specs.Offsets.{ids_of};
ghost use Rattle.csv_instance.specs.Parse.{parse};

use crate::columns::{field_at, field_under};
use crate::fault::InstanceFault;
use crate::growing::Grows;
use crate::row_list::Rows;
use csv::ByteRecord;
use dsa_model::{Fail, Instance, NoMemory};
use std::alloc::Global;
use std::marker::Model;

/// The records of an instance file without a fault, with the instance that they tell of. A contract
/// sees the list of the records, the header first.
#[derive(Drop)]
pub struct Table {
    rows: Rows,
    instance: Instance,
}

impl Model for Table {
    ghost use Rattle.std.specs.Prelude.{◌≡◌, List, Ok};
    ghost use Rattle.csv_instance.specs.Parse.{parse};
    ghost use Rattle.csv_instance.specs.Records.{Record};

    ghost Value = { List Record };

    ghost view = { λ a. a.rows };

    ghost invariant = { λ a. parse a.rows ≡ Ok a.instance };
}

impl Table {
    /// A table of no rows but the header.
    pub(crate) fn start(alloc: Global, rows: Rows) -> Table
        requires { parse rows ≡ Ok [] }
        ensures { result ≡ rows }
    {
        Table {
            rows,
            instance: Instance::new(alloc),
        }
    }

    /// The records as rows.
    pub(crate) fn rows(&self) -> &Rows
        ensures rows { result.now ≡ self.now }
        ensures parsed { (buffers : List BufferTerm) × (parse self.now ≡ Ok buffers) }
    {
        &self.rows
    }

    /// The instance of the records.
    pub fn instance(&self) -> &Instance
        ensures parsed { parse self.now ≡ Ok result.now }
        ensures count { length self.now ≡ length result.now + 1 }
    {
        &self.instance
    }

    /// The number of columns of the header.
    pub fn columns(&self) -> usize
        ensures value { result ≡ length (header_of self.now) }
    {
        self.rows.records().0.len()
    }

    /// The bytes of a column's name, as they stand in the header. The caller owes that `place` is
    /// below the number of columns.
    pub fn column_name(&self, place: usize) -> &[u8]
        requires { place < length (header_of self.now) }
        ensures value { result.now ≡ slice_index_or (header_of self.now) place [] }
    {
        field_at(self.rows.records().0, place)
    }

    /// The bytes of a buffer's id field, of which there are 1 to 255. The caller owes that `b` is
    /// below the count of buffers.
    pub fn id(&self, b: u32) -> &[u8]
        requires { b + 1 < length self.now }
        ensures value { result.now ≡ slice_index_or (ids_of self.now) b [] }
        ensures limit { (1 ≤ length result.now) × (length result.now ≤ 255) }
    {
        let (_, places, rows) = self.rows.records();
        field_under(&rows[b as usize], places.id)
    }
}

impl Grows for Table {
    ghost records = { λ t. t };

    ghost parsed = { parse };

    /// As the trait says.
    fn with_next(
        self,
        alloc: Global,
        row: Result<ByteRecord, csv::Error>,
    ) -> Result<Table, Fail<InstanceFault>> {
        let Table { rows, mut instance } = self;
        let rows = match rows.with_next(alloc, row) {
            Ok(rows) => rows,
            Err(failure) => return Err(failure),
        };
        let last = rows.count() - 1;
        let buffer = match rows.buffer(alloc, last) {
            Ok(buffer) => buffer,
            Err(Fail::Fault(fault)) => {
                return Err(Fail::Fault(InstanceFault::BadBuffer { row: last, fault }));
            }
            Err(Fail::NoMemory) => return Err(Fail::NoMemory),
        };
        match instance.push(buffer) {
            Ok(()) => Ok(Table { rows, instance }),
            Err(NoMemory) => Err(Fail::NoMemory),
        }
    }
}
