//! Sides: the stretches along which buffers begin and end.

ghost use Rattle.std.specs.Prelude.{◌≡◌, ◌≤◌, length, false, true};
ghost use Rattle.std.specs.List.{filter};
ghost use Rattle.std.specs.List.Sorted.{IsPartitionPoint, IsPermutation};
ghost use Rattle.layout_picture.specs.Sides.{AreInOrder, IsSide, begins_on, is_before};

/// A stretch along which a buffer begins or ends: of a place over columns, or of a moment over
/// places.
#[derive(Clone, Copy)]
pub(crate) struct Side {
    /// The place or the moment.
    pub(crate) line: u64,
    /// The first column or place.
    pub(crate) from: u64,
    /// The column or place after the last.
    pub(crate) to: u64,
    /// The buffer's number.
    pub(crate) buffer: u32,
}

/// Puts the sides in order: by line, and on a line by where they begin.
pub(crate) fn put_in_order(sides: &mut Vec<Side>)
    ensures same { IsPermutation sides.old.items sides.new.items }
    ensures order { AreInOrder sides.new.items }
{
    sides.sort_unstable_by_key(|side| (side.line, side.from));
}

/// How many of the sides, which are in order, begin before that point of that line.
fn count_before(sides: &[Side], line: u64, at: u64) -> usize
    requires { AreInOrder sides.now }
    ensures within { result ≤ length sides.now }
    ensures point { IsPartitionPoint (λ s. is_before line at s ≡ true)
        (λ s. is_before line at s ≡ false) sides.now result }
{
    sides.partition_point(|side| side.line < line || side.line == line && side.from < at)
}

/// Those of the sides, which are in order, that begin on that one.
pub(crate) fn begun_on<'a>(sides: &'a [Side], on: &Side) -> &'a [Side]
    requires order { AreInOrder sides.now }
    requires some { IsSide on.now }
    ensures { result.now ≡ filter (begins_on on.now) sides.now }
{
    let first = count_before(sides, on.line, on.from);
    let end = count_before(sides, on.line, on.to);
    &sides[first..end]
}
