//! `import`: the instance of a recorded run of allocations.

ghost use Rattle.std.specs.Prelude.{◌≤◌, IfOk, length};
ghost use Rattle.dsa_model.specs.Limits.{file_limit};
ghost use Rattle.trace_import.specs.Faults.{trace_of};
ghost use Rattle.run_course.specs.Prepares.{outcome_of};
ghost use Rattle.importing.specs.Importing.{Imports, import_course};

use dsa_model::{Fail, NoMemory};
use dsa_outside::Files;
use run_course::{Command, Content, Prepared, Writing, one_write, read_file, silent};
use run_status::{Role, Status};
use std::alloc::Global;
use trace_import::{import, read_trace};

/// Writes the instance of the trace to the output.
#[derive(Clone, Copy)]
pub struct Import<'a> {
    pub trace: &'a str,
    pub output: &'a str,
}

/// What is written and told of the trace's bytes.
fn imported<'a>(alloc: Global, words: &Import<'a>, bytes: &[u8]) -> Result<Prepared<'a>, NoMemory>
    requires { length bytes.now ≤ file_limit }
    ensures { IfOk result (λ p.
        Imports words.now.output.now (trace_of bytes.now) (outcome_of p)) }
{
    let trace = match read_trace(alloc, bytes) {
        Ok(trace) => trace,
        Err(Fail::Fault(fault)) => return silent(alloc, Status::TraceRefused(fault)),
        Err(Fail::NoMemory) => return Err(NoMemory),
    };
    let file = Writing {
        role: Role::Output,
        name: words.output,
        bytes: import(alloc, &trace)?,
    };
    let buffers = trace.buffers();
    one_write(alloc, file, Status::Imported { buffers })
}

impl<'a> Command<'a> for Import<'a> {
    ghost course = { λ i. import_course i.trace.now i.output.now };

    fn conclude<F: Files>(&self, alloc: Global, files: &mut F) -> Result<Prepared<'a>, NoMemory> {
        let bytes = match read_file(files, Role::Trace, self.trace)? {
            Content::Bytes(bytes) => bytes,
            Content::Unreadable(status) => return silent(alloc, status),
        };
        imported(alloc, self, bytes.as_slice())
    }
}
