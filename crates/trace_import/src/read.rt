//! A trace, read.

ghost use Rattle.std.specs.Prelude.{◌≡◌, ◌≤◌, Ok, Err, length};
ghost use Rattle.dsa_model.specs.Fails.{UnlessNoMemory};
ghost use Rattle.dsa_model.specs.Limits.{file_limit};
ghost use Rattle.trace_import.specs.Faults.{trace_of};

use crate::fault::TraceFault;
use crate::split::split_once;
use crate::trace::Trace;
use dsa_model::Fail;
use indexmap::IndexMap;
use std::alloc::Global;

/// The trace that bytes write, or their first fault. The caller owes at most 67108864 bytes.
///
/// A trace is lines, each ended by NL and numbered from 0: `alloc ID SIZE ALIGNMENT` or `free ID`
/// with single spaces, where ID is 1 to 255 bytes of 33 to 126, and SIZE and ALIGNMENT are 1 to 20
/// digits. An identifier may be allocated again once it was freed. One pass over the bytes.
pub fn read_trace(alloc: Global, bytes: &[u8]) -> Result<Trace, Fail<TraceFault>>
    requires { length bytes.now ≤ file_limit }
    ensures read { UnlessNoMemory result (λ trace. trace_of bytes.now ≡ Ok trace)
        (λ fault. trace_of bytes.now ≡ Err fault) }
{
    let mut trace = Trace::new(alloc);
    let mut live = IndexMap::new(alloc);
    let mut rest = bytes;
    while let Some((line, after)) = split_once(rest, b'\n') {
        trace = match trace.with_line(alloc, &mut live, line) {
            Ok(longer) => longer,
            Err(failure) => return Err(failure),
        };
        rest = after;
    }
    if !rest.is_empty() {
        let line = trace.lines();
        return Err(Fail::Fault(TraceFault::BadLine { line }));
    }
    Ok(trace)
}
