//! The seats of placed buffers.

ghost use Rattle.std.specs.Prelude.{◌∷◌, OnOk};
ghost use Rattle.std.specs.List.Sorted.{IsPermutation};
ghost use Rattle.first_fit.specs.Seats.{AreInOrder};

use crate::spans::Span;
use std::alloc::AllocError;

/// A placed buffer with the addresses that it takes.
#[derive(Clone, Copy)]
pub(crate) struct Seat {
    pub(crate) buffer: u32,
    pub(crate) span: Span,
}

/// Puts a seat among the others, which are by rising start.
pub(crate) fn insert_seat(seats: &mut Vec<Seat>, seat: Seat) -> Result<(), AllocError>
    requires { AreInOrder seats.old.items }
    ensures order { OnOk result (AreInOrder seats.new.items) }
    ensures appended { OnOk result (IsPermutation (seat ∷ seats.old.items) seats.new.items) }
{
    let place = seats.partition_point(|other| other.span.start <= seat.span.start);
    seats.insert(place, seat)?;
    Ok(())
}
