//! How a call on files or on a sink fails.

ghost use Rattle.std.specs.Prelude.{◌≡◌};

use dsa_model::NoMemory;
use std::alloc::AllocError;

/// Why a file was not read or written.
#[derive(Clone, Copy, Debug, PartialEq, Eq)]
pub enum FileFault {
    /// The call failed: a fault of that name, or a read of a name that is not there.
    Failed,
    /// Memory has run out. Nothing changed.
    NoMemory,
}

/// Why bytes were not put into a sink.
#[derive(Clone, Copy, Debug, PartialEq, Eq)]
pub enum SinkFault {
    /// The call failed. The sink has taken some of the first bytes, or none.
    Failed,
    /// Memory has run out. Nothing changed.
    NoMemory,
}

impl From<NoMemory> for FileFault {
    ghost use Rattle.dsa_outside.specs.declared.fault.FileFault.TheVariants.{NoMemory};

    ghost from_gives = { λ _ fault. fault ≡ NoMemory };

    fn from(_: NoMemory) -> Self {
        FileFault::NoMemory
    }
}

impl From<AllocError> for FileFault {
    ghost use Rattle.dsa_outside.specs.declared.fault.FileFault.TheVariants.{NoMemory};

    ghost from_gives = { λ _ fault. fault ≡ NoMemory };

    fn from(_: AllocError) -> Self {
        FileFault::NoMemory
    }
}

impl From<AllocError> for SinkFault {
    ghost use Rattle.dsa_outside.specs.declared.fault.SinkFault.TheVariants.{NoMemory};

    ghost from_gives = { λ _ fault. fault ≡ NoMemory };

    fn from(_: AllocError) -> Self {
        SinkFault::NoMemory
    }
}
