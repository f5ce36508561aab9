//! Laws of traces: the instance of a trace holds at each moment what the trace does.

ghost use Rattle.std.specs.Prelude.{◌≡◌, ◌≤◌, ℕ, List, Err, Ok, length};
ghost use Rattle.dsa_terms.specs.Buffers.{IsInstance};
ghost use Rattle.dsa_model.specs.Buffer.{buffer_limit};
ghost use Rattle.dsa_model.specs.Limits.{file_limit};
ghost use Rattle.csv_instance.specs.Parse.{parse};
ghost use Rattle.csv_instance.specs.Records.{table_of};
ghost use Rattle.trace_import.specs.Faults.{trace_of};
ghost use Rattle.trace_import.specs.ImportText.{import_text};
ghost use Rattle.trace_import.specs.Laws.{IsNotLive, IsStillLive};
ghost use Rattle.trace_import.specs.Limits.{AreWithin};
ghost use Rattle.trace_import.specs.Traces.{AreSound, IsTraced, Trace, imported};
ghost use Rattle.trace_import.specs.declared.fault.TraceFault.TheVariants as fault;

/// At each moment before the count of lines the live buffers of the instance are just what is held
/// after the line of that number, with their sizes and alignments; no two of them are of one line,
/// and at later moments nothing is live.
pub fn imported_holds_what_the_trace_does()
    ensures { (trace : Trace) → IsTraced trace (imported trace) }
{}

/// The instance of a trace whose sizes and alignments are at least 1 is one.
pub fn imported_is_an_instance()
    ensures { (trace : Trace) → AreSound trace → IsInstance (imported trace) }
{}

/// A trace that bytes within the limit of a file write has sizes, alignments and a count within an
/// instance's limits, and the text of its instance is within the limit of a file and parses as it.
pub fn accepted_trace_is_imported()
    ensures within { (bytes : List ℕ) (trace : Trace) → trace_of bytes ≡ Ok trace →
        AreWithin trace × (length (imported trace) ≤ buffer_limit) }
    ensures parsed { (bytes : List ℕ) (trace : Trace) → length bytes ≤ file_limit →
        trace_of bytes ≡ Ok trace → parse (table_of (import_text trace)) ≡ Ok (imported trace) }
    ensures short { (bytes : List ℕ) (trace : Trace) → length bytes ≤ file_limit →
        trace_of bytes ≡ Ok trace → length (import_text trace) ≤ file_limit }
{}

/// The line that `StillLive` names is the one that holds the identifier after the lines before, and
/// where `NotLive` comes no line holds it: a line holds its identifier until one after it frees it.
pub fn faults_name_what_is_held()
    ensures still { (bytes : List ℕ) (line earlier : ℕ) →
        trace_of bytes ≡ Err (fault.StillLive line earlier) → IsStillLive bytes line earlier }
    ensures none { (bytes : List ℕ) (line : ℕ) →
        trace_of bytes ≡ Err (fault.NotLive line) → IsNotLive bytes line }
{}
