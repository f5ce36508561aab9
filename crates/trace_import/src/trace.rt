//! A trace that was read.

ghost use Rattle.std.specs.Prelude.{◌≡◌, ◌<◌, ◌≤◌, ◌++◌, ◌∷◌, [], ℕ, None, Ok, Err, length, map};
ghost use Rattle.dsa_model.specs.Buffer.{buffer_limit};
ghost use Rattle.dsa_model.specs.Fails.{UnlessNoMemory};
ghost use Rattle.dsa_model.specs.Limits.{file_limit};
ghost use Rattle.trace_import.specs.Faults.{number_fault, place_fault, with_event};
ghost use Rattle.trace_import.specs.Found.{AreHolders};
ghost use Rattle.trace_import.specs.Lines.{event_in};
ghost use Rattle.trace_import.specs.Limits.{AreWithin, IsWithin};
ghost use Rattle.trace_import.specs.Kept.{line_value};
ghost use Rattle.trace_import.specs.Traces.{Alloc, Free, IsTraced, imported};

use crate::fault::TraceFault;
use crate::line::Line;
use crate::request::{Request, read_line};
use dsa_model::{BUFFER_LIMIT, Fail};
use indexmap::IndexMap;
use std::alloc::Global;
use std::marker::Model;

/// A recorded run of allocations. A contract sees the list of its lines.
#[derive(Drop)]
pub struct Trace {
    lines: Vec<Line>,
    buffers: u32,
}

impl Model for Trace {
    ghost use Rattle.trace_import.specs.Traces.{Trace as Events};

    ghost Value = { Events };

    ghost use Rattle.trace_import.specs.Kept.{IsKeptTrace, events_of};

    ghost view = { events_of };

    ghost invariant = { IsKeptTrace };
}

impl Trace {
    /// A trace of no lines.
    pub(crate) fn new(alloc: Global) -> Trace
        ensures { result ≡ [] }
    {
        Trace {
            lines: Vec::new(alloc),
            buffers: 0,
        }
    }

    /// The count of lines.
    pub fn lines(&self) -> u32
        ensures value { result ≡ length self.now }
        ensures limit { result ≤ file_limit }
    {
        self.lines.len() as u32
    }

    /// The count of buffers: of the lines that allocate.
    pub fn buffers(&self) -> u32
        ensures value { result ≡ length (imported self.now) }
        ensures limit { result ≤ buffer_limit }
    {
        self.buffers
    }

    /// What is wrong with a line that allocates, beside those before it.
    fn alloc_fault(&self, live: &IndexMap<&[u8], u32>, id: &[u8]) -> Option<TraceFault>
        requires { AreHolders live.now.entries self.now }
        ensures { (size alignment : ℕ) →
            result ≡ place_fault self.now (Alloc id.now size alignment) }
    {
        let line = self.lines();
        if let Some(earlier) = live.get(id) {
            let earlier = *earlier;
            return Some(TraceFault::StillLive { line, earlier });
        }
        if self.buffers == BUFFER_LIMIT {
            return Some(TraceFault::TooManyBuffers { line });
        }
        None
    }

    /// The trace with one more line, which allocates, or the line's fault beside those before it.
    fn with_alloc<'a>(
        self,
        alloc: Global,
        live: &mut IndexMap<&'a [u8], u32>,
        id: &'a [u8],
        size: u64,
        alignment: u64,
    ) -> Result<Trace, Fail<TraceFault>>
        requires short { length self < file_limit }
        requires within { IsWithin id.now size alignment }
        requires good { number_fault (length self) (Alloc id.now size alignment) ≡ None }
        requires live { AreHolders live.old.entries self }
        ensures { UnlessNoMemory result
            (λ longer. (with_event self (Some (Alloc id.now size alignment)) ≡ Ok longer)
            × AreHolders live.new.entries longer)
            (λ fault. with_event self (Some (Alloc id.now size alignment)) ≡ Err fault) }
    {
        if let Some(fault) = self.alloc_fault(live, id) {
            return Err(Fail::Fault(fault));
        }
        let Trace { mut lines, buffers } = self;
        let line = lines.len() as u32;
        let kept = Vec::from_slice(alloc, id)?;
        lines.push(Line::Alloc {
            id: kept,
            size,
            alignment,
        })?;
        live.insert(id, line)?;
        Ok(Trace {
            lines,
            buffers: buffers + 1,
        })
    }

    /// The trace with one more line, which frees, or the line's fault beside those before it.
    fn with_free<'a>(
        self,
        alloc: Global,
        live: &mut IndexMap<&'a [u8], u32>,
        id: &'a [u8],
    ) -> Result<Trace, Fail<TraceFault>>
        requires short { length self < file_limit }
        requires live { AreHolders live.old.entries self }
        ensures { UnlessNoMemory result
            (λ longer. (with_event self (Some (Free id.now)) ≡ Ok longer)
            × AreHolders live.new.entries longer)
            (λ fault. with_event self (Some (Free id.now)) ≡ Err fault) }
    {
        let Trace { mut lines, buffers } = self;
        let line = lines.len() as u32;
        if live.swap_remove(id).is_none() {
            return Err(Fail::Fault(TraceFault::NotLive { line }));
        }
        let kept = Vec::from_slice(alloc, id)?;
        lines.push(Line::Free { id: kept })?;
        Ok(Trace { lines, buffers })
    }

    /// The trace with the line that these bytes write put last, or the line's fault. `live` has the
    /// line that holds each identifier.
    pub(crate) fn with_line<'a>(
        self,
        alloc: Global,
        live: &mut IndexMap<&'a [u8], u32>,
        bytes: &'a [u8],
    ) -> Result<Trace, Fail<TraceFault>>
        requires short { length self < file_limit }
        requires live { AreHolders live.old.entries self }
        ensures { UnlessNoMemory result
            (λ longer. (with_event self (event_in bytes.now) ≡ Ok longer)
            × AreHolders live.new.entries longer)
            (λ fault. with_event self (event_in bytes.now) ≡ Err fault) }
    {
        let line = self.lines();
        match read_line(bytes, line) {
            Ok(
                Request::Alloc {
                    id,
                    size,
                    alignment,
                },
            ) => self.with_alloc(alloc, live, id, size, alignment),
            Ok(Request::Free { id }) => self.with_free(alloc, live, id),
            Err(fault) => Err(Fail::Fault(fault)),
        }
    }

    /// The lines.
    pub(crate) fn kept(&self) -> &[Line]
        ensures value { map line_value result.now ≡ self.now }
        ensures within { AreWithin self.now }
        ensures few { length (imported self.now) ≤ buffer_limit }
        ensures short { length self.now ≤ file_limit }
        ensures traced { IsTraced self.now (imported self.now) }
    {
        self.lines.as_slice()
    }
}
