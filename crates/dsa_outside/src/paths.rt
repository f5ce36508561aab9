//! Paths as texts that take no memory.

ghost use Rattle.std.specs.Prelude.{◌≡◌, ◌++◌, IfOk, OnOk};
ghost use Rattle.std.specs.Prelude.{[], ◌∷◌};
ghost use Rattle.std.specs.Option.{unwrap_or};
ghost use Rattle.std.specs.Path.{path_parent};
ghost use Rattle.dsa_outside.specs.Paths.{folder_of, last_of, part_of, linked_from};

use arrayvec::ArrayString;
use std::io;
use std::path::Path;

/// The text of a path. The system takes no longer one.
pub(crate) type PathText = ArrayString<4096>;

/// The longest name for which a file beside it is named after it, in bytes. A name of 255 bytes is
/// the longest of most folders.
const LAST_MOST: usize = 248;

/// A copy of a path. `InvalidFilename`: it is too long.
pub(crate) fn path_text(path: &str) -> io::Result<PathText>
    ensures { IfOk result (λ text. text.bytes ≡ path.now) }
{
    let mut text = PathText::new();
    push(&mut text, path)?;
    Ok(text)
}

/// The file of this ending beside a path, in its folder. `InvalidFilename`: its path is too long.
pub(crate) fn part_path(path: &str, ending: &str) -> io::Result<PathText>
    ensures { IfOk result (λ part. part.bytes ≡ part_of path.now ending.now) }
{
    let mut part = PathText::new();
    push_folder(&mut part, path)?;
    push(&mut part, ".")?;
    let last = last_of(path);
    if last.len() <= LAST_MOST {
        push(&mut part, last)?;
    }
    push(&mut part, ending)?;
    Ok(part)
}

/// Where a link under this path leads, by the text that it holds. `InvalidFilename`: the path is
/// too long.
pub(crate) fn linked_path(path: &str, text: &str) -> io::Result<PathText>
    ensures { IfOk result (λ linked. linked.bytes ≡ linked_from path.now text.now) }
{
    let mut linked = PathText::new();
    if !text.starts_with('/') {
        push_folder(&mut linked, path)?;
    }
    push(&mut linked, text)?;
    Ok(linked)
}

fn push_folder(text: &mut PathText, path: &str) -> io::Result<()>
    ensures { OnOk result (text.new.bytes ≡ text.old.bytes ++ folder_of path.now) }
{
    let folder = parent_of(path);
    if folder.is_empty() {
        return Ok(());
    }
    push(text, folder)?;
    push(text, "/")
}

fn parent_of(path: &str) -> &str
    ensures { result.now ≡ unwrap_or (path_parent path.now) [] }
{
    match Path::new(path).parent() {
        Some(folder) => folder.as_str(),
        None => "",
    }
}

fn last_of(path: &str) -> &str
    ensures { result.now ≡ last_of path.now }
{
    match Path::new(path).file_name() {
        Some(last) => last,
        None => "",
    }
}

fn push(text: &mut PathText, piece: &str) -> io::Result<()>
    ensures { OnOk result (text.new.bytes ≡ text.old.bytes ++ piece.now) }
{
    match text.try_push_str(piece) {
        Ok(()) => Ok(()),
        Err(_) => Err(io::ErrorKind::InvalidFilename.into()),
    }
}
