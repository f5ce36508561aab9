//! A law of meanings.

ghost use Rattle.std.specs.Prelude.{◌≡◌, ◌<◌, ◌↔◌, [], ℕ, None, Some, length, slice_index_or};
ghost use Rattle.csv_instance.specs.Columns.{column_place, name_of};
ghost use Rattle.csv_instance.specs.Parse.{header_fault};
ghost use Rattle.csv_instance.specs.Records.{Record};
ghost use Rattle.csv_instance.specs.declared.columns.Column.{Column};
ghost use Rattle.column_report.specs.Columns.{meaning_of};

/// In a header without a fault a column means one of ours exactly where the reader finds that one
/// at its place.
pub fn meanings_are_as_read()
    ensures { (header : Record) (place : ℕ) (c : Column) → header_fault header ≡ None →
        place < length header → (meaning_of (slice_index_or header place []) ≡ name_of c)
        ↔ (column_place header c ≡ Some place) }
{}
