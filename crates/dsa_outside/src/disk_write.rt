//! How a file of the system is written: a regular one is replaced whole, any other in place.

ghost use Rattle.std.specs.Prelude.{◌≡◌, ◌↔◌, ◌⊎◌, IsTrue};
ghost use Rattle.std.specs.Fs.{IsFile, file_type};

use crate::draft::replace;
use crate::part::Part;
use crate::paths::{PathText, linked_path, path_text};
use crate::transfer::write_whole;
use std::alloc::Global;
use std::fs::{File, Metadata, OpenOptions};
use std::io::ErrorKind;
use std::os::unix::fs::MetadataExt;
use std::{fs, io};

/// How many links are followed one after the other.
const LINKS: usize = 40;

/// Puts these bytes in the place of what the file of that name held.
///
/// Where the name is a regular file, or is not there, another file is written beside it and renamed
/// over it: after an error the name holds what it held. So is the file to which links lead. A
/// regular file in a folder that takes no other one, and whatever is no regular file, is written in
/// place, and so is what a link leads to by a text that is no UTF-8 or too long. The target is that
/// of the name.
pub(crate) fn write_file<R: std::rt::Files<File = File>>(
    rt: &R,
    name: &str,
    target: Option<PathText>,
    bytes: &[u8],
) -> io::Result<()> {
    match target {
        Some(target) => write_named(rt, target.as_str(), bytes),
        None => write_in_place(fs::create(rt, name)?, bytes),
    }
}

fn write_named<'a, R: std::rt::Files<File = File>>(
    rt: &'a R,
    target: &'a str,
    bytes: &[u8],
) -> io::Result<()> {
    match OpenOptions::new().write(true).open(rt, target) {
        Ok(file) => write_over(rt, target, file, bytes),
        Err(e) if e.kind() == ErrorKind::NotFound => write_new(rt, target, bytes),
        Err(e) => Err(e),
    }
}

fn write_new<'a, R: std::rt::Files<File = File>>(
    rt: &'a R,
    target: &'a str,
    bytes: &[u8],
) -> io::Result<()> {
    match Part::begin(rt, target, None) {
        Ok(mut part) => replace(&mut part, bytes),
        Err(e) => Err(e),
    }
}

// Writes over a file that was opened for that, and not yet changed.
fn write_over<'a, R: std::rt::Files<File = File>>(
    rt: &'a R,
    target: &'a str,
    file: File,
    bytes: &[u8],
) -> io::Result<()> {
    let old = file.metadata()?;
    if is_special(&old) {
        return write_in_place(file, bytes);
    }
    match Part::begin(rt, target, Some(old)) {
        Ok(mut part) => replace(&mut part, bytes),
        Err(e) if takes_no_file(e.kind()) => {
            file.set_len(0)?;
            write_in_place(file, bytes)
        }
        Err(e) => Err(e),
    }
}

// Whether a file is a device, a pipe or the like, which no other file can replace.
fn is_special(file: &Metadata) -> bool
    ensures { IsTrue result ↔ ¬ IsFile (file_type file.now) }
{
    !file.is_file()
}

// Whether this error of making a file tells that the folder takes none by that name.
fn takes_no_file(kind: ErrorKind) -> bool
    ensures { IsTrue result ↔ ((kind ≡ ErrorKind.PermissionDenied)
        ⊎ (kind ≡ ErrorKind.ReadOnlyFilesystem) ⊎ (kind ≡ ErrorKind.InvalidFilename)) }
{
    matches!(
        kind,
        ErrorKind::PermissionDenied | ErrorKind::ReadOnlyFilesystem | ErrorKind::InvalidFilename
    )
}

fn write_in_place(mut file: File, bytes: &[u8]) -> io::Result<()> {
    write_whole(&mut file, bytes)?;
    match file.sync_all() {
        // Pipes and terminals have nothing to sync.
        Err(e) if matches!(e.kind(), ErrorKind::InvalidInput | ErrorKind::Unsupported) => Ok(()),
        synced => synced,
    }
}

/// The path to which links lead from a name, or none where no path is known: a link of the system's
/// own leads to an open file, and another one may lead to a name that is no text. It changes
/// nothing, and takes memory where the name is a link.
pub(crate) fn target_of<R: std::rt::Files<File = File>>(
    rt: &R,
    alloc: Global,
    name: &str,
) -> io::Result<Option<PathText>> {
    let mut path = path_text(name)?;
    for _ in 0..LINKS {
        match fs::symlink_metadata(rt, path.as_str()) {
            Ok(link) if link.is_symlink() => {
                if is_of_system(rt, &link) {
                    return Ok(None);
                }
                match linked_from(rt, alloc, path.as_str()) {
                    Ok(next) => path = next,
                    Err(e) if e.kind() == ErrorKind::InvalidFilename => return Ok(None),
                    Err(e) => return Err(e),
                }
            }
            _ => return Ok(Some(path)),
        }
    }
    Err(ErrorKind::FilesystemLoop.into())
}

fn linked_from<R: std::rt::Files<File = File>>(
    rt: &R,
    alloc: Global,
    path: &str,
) -> io::Result<PathText> {
    let text = rt.read_link(alloc, path)?;
    linked_path(path, text.as_path().as_str())
}

fn is_of_system<R: std::rt::Files<File = File>>(rt: &R, link: &Metadata) -> bool {
    fs::symlink_metadata(rt, "/proc/self").is_ok_and(|system| system.dev() == link.dev())
}
