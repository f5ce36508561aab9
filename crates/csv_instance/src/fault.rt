//! What can be wrong with a file.

use crate::columns::Column;
use dsa_model::BufferFault;

/// What is wrong with an instance file. The variants stand in order of precedence: those of the
/// header come first, and all those of a row come before those of the next row. Rows are numbered
/// from 0 after the header, as buffers are.
#[derive(Clone, Copy)]
pub enum InstanceFault {
    /// There is no record.
    NoHeader,
    /// The header's first field begins with the three bytes of a byte order mark, 239, 187, 191.
    MarkedHeader,
    /// A column that has a meaning stands twice: the first, in the order of `Column`, that does.
    DuplicateColumn { column: Column },
    /// The column `offset` stands in the header.
    OffsetColumn,
    /// The first of `id`, `lower`, `upper`, `size` that is missing.
    MissingColumn { column: Column },
    /// There are more rows than an instance has buffers at most.
    TooManyBuffers,
    /// A row has another number of fields than the header.
    FieldCount { row: u32 },
    /// A row's id has no byte.
    EmptyId { row: u32 },
    /// A row's id has more than 255 bytes.
    IdTooLong { row: u32 },
    /// A row has the id of an earlier one.
    DuplicateId { row: u32, earlier: u32 },
    /// The first of `lower`, `upper`, `size`, `alignment`, `lowest` whose field is not 1 to 20
    /// digits with a number of at most 2^62 - 1. A field of the last two may be empty.
    BadNumber { row: u32, column: Column },
    /// A row's gaps are not pieces `a-b` with one space between them, of numbers of 1 to 20 digits
    /// and at most 2^62 - 1.
    BadGap { row: u32 },
    /// The row tells of a buffer with a fault.
    BadBuffer { row: u32, fault: BufferFault },
}

/// What is wrong with a layout file, beside a table. The variants stand in order of precedence:
/// those of the header come first, all those of a row come before those of the next row, and a
/// missing id comes last. Rows are numbered from 0 after the header of the layout file.
#[derive(Clone, Copy)]
pub enum OffsetsFault {
    /// There is no record.
    NoHeader,
    /// `id` stands twice, or else `offset` does.
    DuplicateColumn { column: Column },
    /// `id` is missing, or else `offset` is.
    MissingColumn { column: Column },
    /// A row has another number of fields than the header.
    FieldCount { row: u32 },
    /// No buffer of the table has the row's id.
    UnknownId { row: u32 },
    /// A row has the id of an earlier row of the layout file.
    DuplicateId { row: u32, earlier: u32 },
    /// A row's offset is not 1 to 20 digits with a number of at most 2^60.
    BadNumber { row: u32 },
    /// The least buffer that has no row.
    MissingId { buffer: u32 },
}
