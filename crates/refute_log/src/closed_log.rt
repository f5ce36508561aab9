//! Logs with an end.

ghost use Rattle.std.specs.Prelude.{◌≡◌, ◌≤◌, ◌<◌, length, slice_get, Some};
ghost use Rattle.dsa_model.specs.Limits.{number_limit};
ghost use Rattle.refute_log.specs.Lines.{IsLineKept, line_value};
ghost use Rattle.refute_log.specs.Logs.{IsKeptLog, ended};

use crate::{Line, Log};
use std::marker::Model;

/// A log with its end. What `Log::close` gives is accepted for its instance, so no layout fits at
/// its capacity.
#[derive(Drop)]
pub struct ClosedLog {
    log: Log,
    end: u64,
}

impl Model for ClosedLog {
    ghost use Rattle.dsa_terms.specs.Logs.{Log as LogTerm};
    ghost use Rattle.refute_log.specs.Logs.{ended};

    ghost Value = { LogTerm };

    ghost view = { λ g. ended g.log g.end };

    ghost use Rattle.std.specs.Prelude.{◌<◌, length};

    ghost invariant = { λ g. g.end < length g.log.lines };
}

impl ClosedLog {
    /// The log with that line for its end.
    pub(crate) fn with_end(log: Log, end: u64) -> ClosedLog
        requires { end < length log.lines }
        ensures { result ≡ ended log end }
    {
        ClosedLog { log, end }
    }

    /// How many buffers its instance has.
    pub fn count(&self) -> u32
        ensures value { result ≡ self.now.count }
        ensures kept { IsKeptLog self.now.capacity self.now.lines }
    {
        self.log.count()
    }

    /// The capacity, in bytes, at which its claims are refuted. It is at most 2^60.
    pub fn capacity(&self) -> u64
        ensures value { result ≡ self.now.capacity }
        ensures kept { IsKeptLog self.now.capacity self.now.lines }
    {
        self.log.capacity()
    }

    /// How many lines it has.
    pub fn len(&self) -> u64
        ensures value { result ≡ length self.now.lines }
        ensures limit { result ≤ number_limit }
        ensures kept { IsKeptLog self.now.capacity self.now.lines }
    {
        self.log.len()
    }

    /// The line of that number, which is below `len`.
    pub fn line(&self, k: u64) -> &Line
        requires { k < length self.now.lines }
        ensures value { slice_get self.now.lines k ≡ Some (line_value result.now) }
        ensures kept { IsLineKept (line_value result.now) }
    {
        self.log.line(k)
    }

    /// The number of its end, a line without a bound above its buffer's floor where `Log::close`
    /// gave it.
    pub fn end(&self) -> u64
        ensures value { result ≡ self.now.final }
        ensures in_log { result < length self.now.lines }
        ensures kept { IsKeptLog self.now.capacity self.now.lines }
    {
        let _capacity = self.log.capacity();
        self.end
    }
}
