//! A law of layouts as text.

ghost use Rattle.std.specs.Prelude.{◌≡◌, ◌+◌, ℕ, List, length, Ok};
ghost use Rattle.dsa_terms.specs.Buffers.{Instance};
ghost use Rattle.csv_instance.specs.Layout.{layout_text};
ghost use Rattle.csv_instance.specs.Offsets.{AreOffsets, ids_of, parsed_offsets};
ghost use Rattle.csv_instance.specs.Parse.{parse};
ghost use Rattle.csv_instance.specs.Records.{Record, table_of};

/// The text of a layout reads back: of a table that is an instance, with an offset of at most 2^60
/// for each of its buffers, it gives these offsets.
pub fn layouts_read_back()
    ensures { (table : List Record) (I : Instance) (offsets : List ℕ) → parse table ≡ Ok I →
        length table ≡ length offsets + 1 → AreOffsets offsets →
        parsed_offsets (ids_of table) (table_of (layout_text table offsets)) ≡ Ok offsets }
{}
