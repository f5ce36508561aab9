//! The real file that is made beside the one that it is to replace.

ghost use Rattle.std.specs.Prelude.{None};

use crate::draft::Draft;
use crate::paths::{PathText, part_path};
use crate::transfer::write_whole;
use std::fs::{File, Metadata, OpenOptions, TryLockError};
use std::os::unix::fs::{MetadataExt, OpenOptionsExt, fchown};
use std::{fs, io};

/// The endings of such files, in the order in which they are tried.
const ENDINGS: [&str; 8] = [
    ".part", ".part1", ".part2", ".part3", ".part4", ".part5", ".part6", ".part7",
];

/// A file that was made beside the one that it is to replace, in the same folder.
///
/// It is locked while its run has it open. So a file of such a name that nobody has locked was left
/// by a run that was ended, and is taken away; one that is locked is another run's.
#[derive(Drop)]
pub(crate) struct Part<'a, R: std::rt::Files<File = File>> {
    rt: &'a R,
    path: PathText,
    file: File,
    target: &'a str,
    old: Option<Metadata>,
}

impl<'a, R: std::rt::Files<File = File>> Part<'a, R> {
    /// Makes an empty file beside `target`, after it has taken away what ended runs left there.
    /// `old` is the file that is to be replaced, where there is one. After an error no file was
    /// made.
    pub(crate) fn begin(
        rt: &'a R,
        target: &'a str,
        old: Option<Metadata>,
    ) -> io::Result<Part<'a, R>> {
        for ending in ENDINGS {
            clear(rt, part_path(target, ending)?.as_str());
        }
        for ending in ENDINGS {
            let path = part_path(target, ending)?;
            if let Some(file) = create(rt, path.as_str(), old.is_some())? {
                return Ok(Part {
                    rt,
                    path,
                    file,
                    target,
                    old,
                });
            }
        }
        Err(io::ErrorKind::ResourceBusy.into())
    }
}

impl<'a, R: std::rt::Files<File = File>> Draft for Part<'a, R> {
    ghost state = { λ _. None };

    fn take_rights(&mut self) -> io::Result<()> {
        match &self.old {
            Some(old) => copy_rights(&self.file, old),
            None => Ok(()),
        }
    }

    fn write(&mut self, bytes: &[u8]) -> io::Result<()> {
        write_whole(&mut self.file, bytes)
    }

    fn sync(&mut self) -> io::Result<()> {
        self.file.sync_all()
    }

    fn rename(&mut self) -> io::Result<()> {
        fs::rename(self.rt, self.path.as_str(), self.target)
    }

    fn remove(&mut self) {
        let _ = fs::remove_file(self.rt, self.path.as_str());
    }
}

// Owner and group are kept where the system lets them be.
fn copy_rights(file: &File, old: &Metadata) -> io::Result<()> {
    let new = file.metadata()?;
    if new.gid() != old.gid() {
        let _ = fchown(file, None, Some(old.gid()));
    }
    if new.uid() != old.uid() {
        let _ = fchown(file, Some(old.uid()), None);
    }
    file.set_permissions(old.permissions())
}

// Takes away what an ended run left.
fn clear<R: std::rt::Files<File = File>>(rt: &R, path: &str) {
    if !fs::symlink_metadata(rt, path).is_ok_and(|left| left.is_file()) {
        return;
    }
    let Ok(file) = OpenOptions::new().write(true).open(rt, path) else {
        return;
    };
    if file.try_lock().is_ok() && is_under(rt, &file, path) {
        let _ = fs::remove_file(rt, path);
    }
}

// A new file, or none where the name is in use. It may be read by others only once it has the
// permissions of the file that it replaces.
fn create<R: std::rt::Files<File = File>>(
    rt: &R,
    path: &str,
    is_private: bool,
) -> io::Result<Option<File>> {
    let mut how = OpenOptions::new();
    how.write(true).create_new(true);
    if is_private {
        how.mode(0o600);
    }
    match how.open(rt, path) {
        Ok(file) => Ok(has(rt, &file, path).then_some(file)),
        Err(e) if e.kind() == io::ErrorKind::AlreadyExists => Ok(None),
        Err(e) => Err(e),
    }
}

// Whether a file that was just made is still this run's: another one may have taken it for left.
// Where the system has no locks nobody does.
fn has<R: std::rt::Files<File = File>>(rt: &R, file: &File, path: &str) -> bool {
    !matches!(file.try_lock(), Err(TryLockError::WouldBlock)) && is_under(rt, file, path)
}

// Whether the open file is the one that stands under the path.
fn is_under<R: std::rt::Files<File = File>>(rt: &R, file: &File, path: &str) -> bool {
    match (file.metadata(), fs::symlink_metadata(rt, path)) {
        (Ok(open), Ok(there)) => open.dev() == there.dev() && open.ino() == there.ino(),
        _ => false,
    }
}
