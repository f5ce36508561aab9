//! `draw`: a picture of a layout.

ghost use Rattle.std.specs.Prelude.{◌≡◌, Ok, IfOk};
ghost use Rattle.dsa_terms.specs.Buffers.{Instance};
ghost use Rattle.dsa_model.specs.Limits.{number_limit};
ghost use Rattle.csv_instance.specs.Parse.{parse};
ghost use Rattle.layout_picture.specs.Rectangles.{EndsWithin};
ghost use Rattle.run_course.specs.Course.{Concludes};
ghost use Rattle.run_course.specs.Prepares.{outcome_of};
ghost use Rattle.readings.specs.Judging.{judged};
ghost use Rattle.judging.specs.Drawing.{Draws, draw, drawing};

use csv_instance::Table;
use dsa_model::{NUMBER_LIMIT, NoMemory};
use dsa_outside::Files;
use layout_picture::picture;
use readings::{Judged, TableCommand, conclude_input, read_judged_layout};
use run_course::{Command, Prepared, Writing, one_write, silent};
use run_status::{Role, Status};
use std::alloc::Global;

/// Judges the layout file against the instance of the input at the greatest capacity, and writes a
/// picture of the layout to the output.
#[derive(Clone, Copy)]
pub struct Draw<'a> {
    pub input: &'a str,
    pub layout: &'a str,
    pub output: &'a str,
}

/// The picture of a layout, to be written to the output. The caller owes as many offsets as the
/// table has buffers, each buffer ending at or below 2^60.
fn drawing<'a>(
    alloc: Global,
    table: &Table,
    offsets: &[u64],
    output: &'a str,
) -> Result<Prepared<'a>, NoMemory>
    requires { (I : Instance) → parse table.now ≡ Ok I → EndsWithin I offsets.now }
    ensures { IfOk result (λ p. (I : Instance) → parse table.now ≡ Ok I →
        outcome_of p ≡ drawing output.entry.now table.now I offsets.now) }
{
    let drawn = picture(alloc, table, offsets)?;
    let status = Status::Drawn {
        rectangles: drawn.rectangles,
    };
    let file = Writing {
        role: Role::Output,
        name: output,
        bytes: drawn.text,
    };
    one_write(alloc, file, status)
}

impl<'a> TableCommand<'a> for Draw<'a> {
    ghost after = { λ d table I. judged d.layout.now table I number_limit
        (λ offsets. Concludes (Draws d.output.now table I offsets)) };

    fn conclude_table<F: Files>(
        &self,
        alloc: Global,
        files: &mut F,
        table: &Table,
    ) -> Result<Prepared<'a>, NoMemory> {
        match read_judged_layout(alloc, files, self.layout, table, NUMBER_LIMIT)? {
            Judged::Layout(offsets) => drawing(alloc, table, offsets.as_slice(), self.output),
            Judged::NoLayout(status) => silent(alloc, status),
        }
    }
}

impl<'a> Command<'a> for Draw<'a> {
    ghost course = { λ d. draw d.input.now d.layout.now d.output.now };

    fn conclude<F: Files>(&self, alloc: Global, files: &mut F) -> Result<Prepared<'a>, NoMemory> {
        conclude_input(alloc, files, self.input, self)
    }
}
