//! What a command has concluded before anything is written.

ghost use Rattle.std.specs.Prelude.{◌≡◌, [], ◌∷◌, IfOk};
ghost use Rattle.run_status.specs.Lines.{line};
ghost use Rattle.run_course.specs.Course.{says, shows, writes};
ghost use Rattle.run_course.specs.Prepares.{outcome_of, write_of};

use dsa_model::NoMemory;
use run_status::{Role, Status, status_line};
use std::alloc::Global;

/// A status, and what is printed for it.
#[derive(Drop)]
pub struct Said {
    pub status: Status,
    pub text: Vec<u8>,
}

/// A file to write: its part in the command, its name and its new bytes.
#[derive(Drop)]
pub struct Writing<'a> {
    pub role: Role,
    pub name: &'a str,
    pub bytes: Vec<u8>,
}

/// What is written, in order, and what is said once that is done. All texts are made before the
/// first write.
#[derive(Drop)]
pub enum Prepared<'a> {
    Silent(Said),
    One(Writing<'a>, Said),
    Both(Writing<'a>, Writing<'a>, Said),
}

/// A status with its line.
pub fn say(alloc: Global, status: Status) -> Result<Said, NoMemory>
    ensures status { IfOk result (λ said. said.status ≡ status) }
    ensures text { IfOk result (λ said. said.text.items ≡ line status) }
{
    let line = status_line(alloc, status)?;
    Ok(Said {
        status,
        text: line.into_bytes(),
    })
}

/// Nothing to write, and a status with its line.
pub fn silent<'a>(alloc: Global, status: Status) -> Result<Prepared<'a>, NoMemory>
    ensures { IfOk result (λ p. outcome_of p ≡ says status) }
{
    Ok(Prepared::Silent(say(alloc, status)?))
}

/// Nothing to write, and a report.
pub fn shown<'a>(text: Vec<u8>) -> Prepared<'a>
    ensures { outcome_of result ≡ shows text.items }
{
    Prepared::Silent(Said {
        status: Status::Shown,
        text,
    })
}

/// A file to write, and then a status with its line.
pub fn one_write(alloc: Global, file: Writing<'_>, status: Status) -> Result<Prepared<'_>, NoMemory>
    ensures { IfOk result (λ p. outcome_of p ≡ writes (write_of file.entry ∷ []) status) }
{
    Ok(Prepared::One(file, say(alloc, status)?))
}

/// Two files to write, in order, and then a status with its line.
pub fn two_writes<'a>(
    alloc: Global,
    first: Writing<'a>,
    second: Writing<'a>,
    status: Status,
) -> Result<Prepared<'a>, NoMemory>
    ensures { IfOk result (λ p. outcome_of p
        ≡ writes (write_of first.entry ∷ write_of second.entry ∷ []) status) }
{
    Ok(Prepared::Both(first, second, say(alloc, status)?))
}
