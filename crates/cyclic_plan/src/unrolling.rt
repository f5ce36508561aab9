//! Buffers of one period, read and written as an instance.

ghost use Rattle.std.specs.Prelude.{◌≡◌, ◌+◌, ◌<◌, ◌≤◌, ◌↔◌, None, Some, Ok, Err, IfOk, ℕ, List, length};
ghost use Rattle.dsa_terms.specs.Buffers.{Buffer as BufferTerm, Instance, buffer};
ghost use Rattle.dsa_terms.specs.Layouts.{IsLayout};
ghost use Rattle.dsa_model.specs.Buffer.{buffer_fault};
ghost use Rattle.dsa_model.specs.Fails.{UnlessNoMemory};
ghost use Rattle.dsa_model.specs.Limits.{file_limit, number_limit};
ghost use Rattle.csv_instance.specs.Parse.{parse};
ghost use Rattle.csv_instance.specs.Records.{table_of};
ghost use Rattle.csv_instance.specs.Rows.{parse_rows, values_of};
ghost use Rattle.cyclic_plan.specs.Cycles.{IsCycleLayout, unrolled};
ghost use Rattle.cyclic_plan.specs.Unrolled.{cycle_row_fault, cycle_rows_fault, unrolled_of, unrolled_text, wraps_from};

use crate::CycleFault;
use csv_instance::{Rows, read_rows, write_changed};
use dsa_model::{Buffer, BufferFault, Fail};
use std::alloc::Global;

/// The instance of one period, written.
#[derive(Drop)]
pub struct Unrolled {
    /// The text of the instance file.
    pub text: Vec<u8>,
    /// The number of its buffers.
    pub buffers: u32,
}

/// The buffer that a row becomes in one period, or the first of its faults.
fn unrolled_buffer(
    alloc: Global,
    rows: &Rows,
    row: u32,
    period: u64,
) -> Result<Buffer, Fail<BufferFault>>
    requires in_range { row + 1 < length rows.now }
    requires period { period ≤ number_limit }
    ensures { let b = unrolled period (buffer (values_of rows.now) row) in UnlessNoMemory result
        (λ _. buffer_fault b ≡ None) (λ fault. buffer_fault b ≡ Some fault) }
{
    let lower = rows.lower(row);
    let upper = rows.upper(row);
    let size = rows.size(row);
    let alignment = rows.alignment(row);
    let lowest = rows.lowest(row);
    if lower <= upper {
        Buffer::new(alloc, lower, upper, size, alignment, rows.gaps(row), lowest)
    } else {
        let mut gaps = rows.gaps(row).to_vec(alloc)?;
        gaps.push((upper, lower))?;
        Buffer::new(alloc, 0, period, size, alignment, &gaps, lowest)
    }
}

/// The first fault of a row.
fn check_row(alloc: Global, rows: &Rows, row: u32, period: u64) -> Result<(), Fail<CycleFault>>
    requires in_range { row + 1 < length rows.now }
    requires period { period ≤ number_limit }
    ensures { let fault = cycle_row_fault period row (buffer (values_of rows.now) row) in
        UnlessNoMemory result (λ _. fault ≡ None) (λ f. fault ≡ Some f) }
{
    if rows.lower(row) >= period || rows.upper(row) > period {
        return Err(Fail::Fault(CycleFault::Outside { row }));
    }
    match unrolled_buffer(alloc, rows, row, period) {
        Ok(_) => Ok(()),
        Err(Fail::Fault(fault)) => Err(Fail::Fault(CycleFault::BadBuffer { row, fault })),
        Err(Fail::NoMemory) => Err(Fail::NoMemory),
    }
}

/// The changes of the rows that wrap, or the first fault of a row.
fn wraps(
    alloc: Global,
    rows: &Rows,
    period: u64,
) -> Result<Vec<(u32, u64, u64, u64, u64)>, Fail<CycleFault>>
    requires { period ≤ number_limit }
    ensures { let read = values_of rows.now in UnlessNoMemory result
        (λ changes. (cycle_rows_fault period 0 read ≡ None)
        × (changes.items ≡ wraps_from period 0 read))
        (λ f. cycle_rows_fault period 0 read ≡ Some f) }
{
    let mut changes = Vec::new(alloc);
    for row in 0..rows.count() {
        match check_row(alloc, rows, row, period) {
            Ok(()) => {}
            Err(failure) => return Err(failure),
        }
        let lower = rows.lower(row);
        let upper = rows.upper(row);
        if upper < lower {
            changes.push((row, 0, period, upper, lower))?;
        }
    }
    Ok(changes)
}

/// The instance of one period that a file of rows gives, written: the rows as they were read, but
/// that a row whose `lower` is above its `upper` has the whole period for its lifetime, with a gap
/// more between its end and its beginning. Or the file's first fault: that of `read_rows`, and then
/// row by row.
///
/// The caller owes at most 67108864 bytes and a period of at most 2^60 moments.
pub fn unroll(alloc: Global, bytes: &[u8], period: u64) -> Result<Unrolled, Fail<CycleFault>>
    requires length { length bytes.now ≤ file_limit }
    requires period { period ≤ number_limit }
    ensures unrolled { let given = unrolled_of period (table_of bytes.now) in UnlessNoMemory result
        (λ u. (I : Instance) × (given ≡ Ok I) × (u.buffers ≡ length I))
        (λ fault. given ≡ Err fault) }
    ensures text { IfOk result (λ u. u.text.items ≡ unrolled_text period (table_of bytes.now)) }
    ensures parsed { IfOk result (λ u. (I : Instance) →
        unrolled_of period (table_of bytes.now) ≡ Ok I →
        parse (table_of u.text.items) ≡ Ok I) }
    ensures layouts { IfOk result (λ u. (rows : List BufferTerm) (I : Instance) →
        parse_rows (table_of bytes.now) ≡ Ok rows → parse (table_of u.text.items) ≡ Ok I →
        (C : ℕ) (o : List ℕ) → IsLayout I C o ↔ IsCycleLayout period C rows o) }
{
    let rows = match read_rows(alloc, bytes) {
        Ok(rows) => rows,
        Err(Fail::Fault(fault)) => return Err(Fail::Fault(CycleFault::Instance(fault))),
        Err(Fail::NoMemory) => return Err(Fail::NoMemory),
    };
    let changes = match wraps(alloc, &rows, period) {
        Ok(changes) => changes,
        Err(failure) => return Err(failure),
    };
    let Ok(text) = write_changed(alloc, &rows, changes.as_slice()) else {
        return Err(Fail::NoMemory);
    };
    Ok(Unrolled {
        text,
        buffers: rows.count(),
    })
}
