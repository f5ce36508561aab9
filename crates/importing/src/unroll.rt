//! `unroll`: the instance of one period of buffers whose moments repeat.

ghost use Rattle.std.specs.Prelude.{◌≤◌, IfOk, length};
ghost use Rattle.dsa_model.specs.Limits.{file_limit, number_limit};
ghost use Rattle.csv_instance.specs.Records.{table_of};
ghost use Rattle.cyclic_plan.specs.Unrolled.{unrolled_of};
ghost use Rattle.run_course.specs.Prepares.{outcome_of};
ghost use Rattle.importing.specs.Unrolling.{Unrolls, unroll_course};

use cyclic_plan::unroll;
use dsa_model::{Fail, NoMemory};
use dsa_outside::Files;
use run_course::{Command, Content, Prepared, Writing, one_write, read_file, silent};
use run_status::{Role, Status};
use std::alloc::Global;

/// Writes the instance of one period (in moments, at most 2^60) of the input to the output.
#[derive(Clone, Copy)]
pub struct Unroll<'a> {
    pub period: u64,
    pub input: &'a str,
    pub output: &'a str,
}

/// What is written and told of the input's bytes.
fn unrolled<'a>(alloc: Global, words: &Unroll<'a>, bytes: &[u8]) -> Result<Prepared<'a>, NoMemory>
    requires period { words.now.period ≤ number_limit }
    requires length { length bytes.now ≤ file_limit }
    ensures { let table = table_of bytes.now in let period = words.now.period in
        IfOk result (λ p.
        Unrolls period words.now.output.now table (unrolled_of period table) (outcome_of p)) }
{
    let unrolled = match unroll(alloc, bytes, words.period) {
        Ok(unrolled) => unrolled,
        Err(Fail::Fault(fault)) => return silent(alloc, Status::CycleRefused(fault)),
        Err(Fail::NoMemory) => return Err(NoMemory),
    };
    let buffers = unrolled.buffers;
    let file = Writing {
        role: Role::Output,
        name: words.output,
        bytes: unrolled.text,
    };
    one_write(alloc, file, Status::Unrolled { buffers })
}

impl<'a> Command<'a> for Unroll<'a> {
    ghost course = { λ u. unroll_course u.period u.input.now u.output.now };

    ghost is_asked = { λ u. u.period ≤ number_limit };

    fn conclude<F: Files>(&self, alloc: Global, files: &mut F) -> Result<Prepared<'a>, NoMemory> {
        let bytes = match read_file(files, Role::Input, self.input)? {
            Content::Bytes(bytes) => bytes,
            Content::Unreadable(status) => return silent(alloc, status),
        };
        unrolled(alloc, self, bytes.as_slice())
    }
}
