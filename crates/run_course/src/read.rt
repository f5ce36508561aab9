//! Reading whole files.

ghost use Rattle.std.specs.Prelude.{◌≡◌, IfOk};
ghost use Rattle.dsa_outside.specs.Faults.{NoneFell};
ghost use Rattle.run_course.specs.Prepares.{Opens};

use dsa_model::NoMemory;
use dsa_outside::{FileFault, Files};
use run_status::{Role, Status};

/// The content of a file, or the status that the run ends with.
#[derive(Drop)]
pub enum Content {
    Bytes(Vec<u8>),
    Unreadable(Status),
}

/// Reads a whole file, where it has no more bytes than one of its role may have.
pub fn read_file<F: Files>(files: &mut F, role: Role, name: &str) -> Result<Content, NoMemory>
    ensures content { IfOk result (λ content. Opens
        (F.seen files.old) (F.seen files.new) role name.now content) }
    ensures files { (F.seen files.new).held ≡ (F.seen files.old).held }
    ensures counts { NoneFell (F.seen files.old).faults (F.seen files.new).faults }
{
    let most = role.limit();
    let bytes = match files.read(name, most + 1) {
        Ok(bytes) => bytes,
        Err(FileFault::Failed) => return Ok(Content::Unreadable(Status::ReadFault(role))),
        Err(FileFault::NoMemory) => return Err(NoMemory),
    };
    if bytes.len() as u64 > most {
        return Ok(Content::Unreadable(Status::TooLong(role)));
    }
    Ok(Content::Bytes(bytes))
}
