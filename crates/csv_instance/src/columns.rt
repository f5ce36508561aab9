//! The columns that have a meaning.

ghost use Rattle.std.specs.Prelude.{◌≡◌, ◌<◌, [], List, ℕ, slice_index_or, length, position};
ghost use Rattle.std.specs.Option.{option_map_or};
ghost use Rattle.std.specs.Str.{bytes_eq};
ghost use Rattle.csv.specs.Records.{fields_of};
ghost use Rattle.csv_instance.specs.Columns.{name_of, column_named, column_place};
ghost use Rattle.csv_instance.specs.Places.{column_places};

use csv::ByteRecord;

/// A column that has a meaning. Every other column is carried from an instance file into its
/// layouts.
#[derive(Clone, Copy)]
pub enum Column {
    /// `id`: what names a buffer.
    Id,
    /// `lower`: the first moment of its lifetime.
    Lower,
    /// `upper`: the first moment after its lifetime.
    Upper,
    /// `size`: how many bytes it takes.
    Size,
    /// `alignment`: the number of which its offset is a multiple.
    Alignment,
    /// `gaps`: the parts of its lifetime in which it holds no storage.
    Gaps,
    /// `offset`: where it stands, in a layout file.
    Offset,
    /// `lowest`: the least offset that it may have.
    Lowest,
}

/// The columns that have a meaning, in the order in which they are judged.
pub(crate) const NAMED: [Column; 8] = [
    Column::Id,
    Column::Lower,
    Column::Upper,
    Column::Size,
    Column::Alignment,
    Column::Gaps,
    Column::Offset,
    Column::Lowest,
];

impl Column {
    /// The column's name, as it stands in a header.
    pub fn name(self) -> &'static str
        ensures value { result.now ≡ name_of self }
    {
        match self {
            Column::Id => "id",
            Column::Lower => "lower",
            Column::Upper => "upper",
            Column::Size => "size",
            Column::Alignment => "alignment",
            Column::Gaps => "gaps",
            Column::Offset => "offset",
            Column::Lowest => "lowest",
        }
    }

    /// The column of this name, byte for byte, and none where a column of this name has no meaning.
    pub fn named(name: &[u8]) -> Option<Column>
        ensures value { result ≡ column_named name.now }
    {
        NAMED
            .iter()
            .copied()
            .find(|column| column_name(*column) == name)
    }
}

/// A column's name in bytes.
pub(crate) fn column_name(column: Column) -> &'static [u8]
    ensures { result.now ≡ name_of column }
{
    column.name().as_bytes()
}

/// Where the columns of an instance file's header stand.
#[derive(Clone, Copy)]
pub(crate) struct ColumnPlaces {
    pub(crate) id: Option<usize>,
    pub(crate) lower: Option<usize>,
    pub(crate) upper: Option<usize>,
    pub(crate) size: Option<usize>,
    pub(crate) alignment: Option<usize>,
    pub(crate) gaps: Option<usize>,
    pub(crate) lowest: Option<usize>,
}

/// The field of a row at a place, and nothing where it has none there.
pub(crate) fn field_at(row: &ByteRecord, place: usize) -> &[u8]
    ensures { result.now ≡ slice_index_or (fields_of row.now) place [] }
{
    match row.get(place) {
        Some(field) => field,
        None => b"",
    }
}

/// The field of a row under a column, and nothing where there is no such column.
pub(crate) fn field_under(row: &ByteRecord, place: Option<usize>) -> &[u8]
    ensures { result.now ≡ option_map_or (λ i. slice_index_or (fields_of row.now) i []) place [] }
{
    match place {
        Some(place) => field_at(row, place),
        None => b"",
    }
}

/// Where a column stands in a header.
pub(crate) fn find_column(header: &ByteRecord, column: Column) -> Option<usize>
    ensures { result ≡ column_place (fields_of header.now) column }
{
    let name = column_name(column);
    for place in 0..header.len() {
        if name == field_at(header, place) {
            return Some(place);
        }
    }
    None
}

/// Where the columns of an instance file's header stand.
pub(crate) fn find_columns(header: &ByteRecord) -> ColumnPlaces
    ensures { result ≡ column_places (fields_of header.now) }
{
    ColumnPlaces {
        id: find_column(header, Column::Id),
        lower: find_column(header, Column::Lower),
        upper: find_column(header, Column::Upper),
        size: find_column(header, Column::Size),
        alignment: find_column(header, Column::Alignment),
        gaps: find_column(header, Column::Gaps),
        lowest: find_column(header, Column::Lowest),
    }
}
