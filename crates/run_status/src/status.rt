//! How a run ends.

ghost use Rattle.std.specs.Prelude.{◌≡◌};
ghost use Rattle.run_status.specs.Codes.{code_of};

use command_words::{Role, UsageFault};
use csv_instance::{InstanceFault, OffsetsFault};
use cyclic_plan::CycleFault;
use dsa_model::LayoutFault;
use log_check::CheckFault;
use log_text::TextFault;
use trace_import::TraceFault;

/// Why a layout file is wrong.
#[derive(Clone, Copy)]
pub enum WrongCause {
    /// It gives no offsets for the instance.
    Offsets(OffsetsFault),
    /// Its offsets are no layout.
    Layout(LayoutFault),
}

/// Why a log is refused.
#[derive(Clone, Copy)]
pub enum LogCause {
    /// Its bytes are no log's text.
    Text(TextFault),
    /// It is not accepted for the instance.
    Check(CheckFault),
}

/// How a run ends. The step that comes first decides: words, the count of a trial, reading the
/// input or the trace, its length, its records or lines, reading the second file, its length, its
/// content, deciding, writing the output, writing the log, printing.
#[derive(Clone, Copy)]
pub enum Status {
    /// A layout within the capacity (bytes) is written.
    Feasible { capacity: u64 },
    /// No layout fits within the capacity (bytes), and a log that proves it is written.
    Infeasible { capacity: u64 },
    /// The capacity (bytes) is the least that has a layout; the layout is written, and a log that
    /// proves that one byte less is too little, unless the capacity is 0.
    Least { capacity: u64 },
    /// The steps ran out: the least capacity (bytes) is at least `low` and at most `high`. A layout
    /// of height `high` is written, and a log that proves that one byte less than `low` is too
    /// little.
    Open { low: u64, high: u64 },
    /// The offsets are a layout at the capacity.
    Right,
    /// They are not.
    Wrong(WrongCause),
    /// The log is accepted: no layout fits within its capacity (bytes).
    Accepted { capacity: u64 },
    /// The log is not accepted.
    LogRefused(LogCause),
    /// The log had so many lines, and the log that is written has so many.
    Trimmed { before: u64, after: u64 },
    /// The log, of so many lines, is written in the second version of its text.
    Upgraded { lines: u64 },
    /// A picture of the layout is written, with so many rectangles.
    Drawn { rectangles: u64 },
    /// The instance of a trace, of so many buffers, is written.
    Imported { buffers: u32 },
    /// The file is no trace, for its first fault.
    TraceRefused(TraceFault),
    /// The instance of one period, of so many buffers, is written.
    Unrolled { buffers: u32 },
    /// The file holds no buffers of one period, for its first fault.
    CycleRefused(CycleFault),
    /// A plan by size class is written: its height, and the greatest load, in bytes.
    Classed { height: u64, load: u64 },
    /// The instance is not plain, for this buffer first: it has a gap, an alignment
    /// above 1 or a lowest above 0.
    NotPlain { buffer: u32 },
    /// An irreducible set of so many buffers that do not fit is written, with a log that proves it.
    Core { members: u32 },
    /// All buffers fit within the capacity (bytes), so there is no such set.
    NoCore { capacity: u64 },
    /// A report is printed.
    Shown,
    /// The words are no command.
    Usage(UsageFault),
    /// The input is no instance.
    Malformed(InstanceFault),
    /// A file could not be read.
    ReadFault(Role),
    /// A file holds more bytes than its limit.
    TooLong(Role),
    /// A file could not be written; nothing is known of what it holds.
    WriteFault(Role),
    /// The line could not be printed, or only in part.
    PrintFault,
    /// A trial of more buffers than an instance may have.
    TooMany { count: u64 },
    /// Memory ran out.
    NoMemory,
}

impl Status {
    /// The exit code of the program: 0 for a yes, 1 for a no, 2 for steps that ran out, 3 for wrong
    /// words or a count that is too great, 4 for a malformed instance, 5 for a file or a sink that
    /// fails, 6 for want of memory, 7 for a file that is too long.
    pub fn code(&self) -> u8
        ensures { result ≡ code_of self.now }
    {
        match self {
            Status::Feasible { .. }
            | Status::Least { .. }
            | Status::Right
            | Status::Accepted { .. }
            | Status::Trimmed { .. }
            | Status::Upgraded { .. }
            | Status::Drawn { .. }
            | Status::Imported { .. }
            | Status::Unrolled { .. }
            | Status::Classed { .. }
            | Status::NoCore { .. }
            | Status::Shown => 0,
            Status::Infeasible { .. }
            | Status::Wrong(_)
            | Status::LogRefused(_)
            | Status::Core { .. } => 1,
            Status::Open { .. } => 2,
            Status::Usage(_) | Status::TooMany { .. } => 3,
            Status::Malformed(_)
            | Status::TraceRefused(_)
            | Status::CycleRefused(_)
            | Status::NotPlain { .. } => 4,
            Status::ReadFault(_) | Status::WriteFault(_) | Status::PrintFault => 5,
            Status::NoMemory => 6,
            Status::TooLong(_) => 7,
        }
    }
}
