//! The lines of a trace, as they are kept.

/// A line of a trace.
#[derive(Drop)]
pub(crate) enum Line {
    /// The identifier is allocated, with its size in bytes and its alignment.
    Alloc {
        id: Vec<u8>,
        size: u64,
        alignment: u64,
    },
    /// The identifier is freed.
    Free {
        id: Vec<u8>,
    },
}

impl Line {
    ghost use Rattle.std.specs.Prelude.{◌≡◌, not};
    ghost use Rattle.trace_import.specs.Requests.{id_of};
    ghost use Rattle.trace_import.specs.Kept.{line_value};
    ghost use Rattle.trace_import.specs.Traces.{is_alloc};

    /// The identifier.
    pub(crate) fn id(&self) -> &[u8]
        ensures { result.now ≡ id_of (line_value self.now) }
    {
        match self {
            Line::Alloc { id, .. } | Line::Free { id } => id.as_slice(),
        }
    }

    /// Whether it frees.
    pub(crate) fn is_free(&self) -> bool
        ensures { result ≡ not (is_alloc (line_value self.now)) }
    {
        matches!(self, Line::Free { .. })
    }
}
