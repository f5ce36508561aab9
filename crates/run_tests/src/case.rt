//! Command lines over files in memory, and how each ends.

use dsa_outside::{MemoryFiles, MemorySink};
use dsaplan_core::run;
use std::alloc::{AllocError, Global};

/// What is left under a name.
#[derive(Clone, Copy)]
pub(crate) enum Left {
    Nothing,
    Something,
    Text(&'static str),
}

/// A command line, what lies there when it is run, and what comes of it.
#[derive(Clone, Copy)]
pub(crate) struct Case {
    /// The words, with a space between two.
    pub(crate) line: &'static str,
    /// The files that lie there, by name.
    pub(crate) files: &'static [(&'static str, &'static str)],
    /// How many calls on the files go through. The next one fails.
    pub(crate) calls: u64,
    /// How many puts go through. The next one fails.
    pub(crate) puts: u64,
    /// The exit code.
    pub(crate) code: u8,
    /// What is printed.
    pub(crate) printed: &'static str,
    /// What is left as `o`.
    pub(crate) output: Left,
    /// What is left as `l`.
    pub(crate) log: Left,
}

/// The place and the line of the first case that ends otherwise, or that memory does not suffice
/// for.
pub(crate) fn first_unmet(alloc: Global, cases: &[Case]) -> Option<(usize, &'static str)> {
    for (place, case) in cases.iter().enumerate() {
        if is_met(alloc, case) != Some(true) {
            return Some((place, case.line));
        }
    }
    None
}

/// Whether the case ends as it says. It tells nothing where memory runs out.
fn is_met(alloc: Global, case: &Case) -> Option<bool> {
    let mut files = files_of(alloc, case)?;
    let mut out = MemorySink::new(alloc, vec![in alloc; case.puts].ok()?);
    let code = code_of(alloc, case.line, &mut files, &mut out)?;
    Some(code == case.code && ends_so(case, &files, &out))
}

/// Whether what is printed and what is left is as the case says.
fn ends_so(case: &Case, files: &MemoryFiles, out: &MemorySink) -> bool {
    out.content() == case.printed.as_bytes()
        && is_left(files.get("o"), case.output)
        && is_left(files.get("l"), case.log)
}

/// The files of the case, of which one call more than it says fails.
fn files_of(alloc: Global, case: &Case) -> Option<MemoryFiles> {
    let mut files = MemoryFiles::new(alloc, vec![in alloc; case.calls].ok()?);
    for (name, text) in case.files {
        files.insert(name, text.as_bytes()).ok()?;
    }
    Some(files)
}

/// The exit code of the line.
fn code_of(alloc: Global, line: &str, files: &mut MemoryFiles, out: &mut MemorySink) -> Option<u8> {
    let words = words_of(alloc, line).ok()?;
    Some(run(alloc, &words, files, out).code())
}

fn words_of(alloc: Global, line: &str) -> Result<Vec<String>, AllocError> {
    let mut words = Vec::new(alloc);
    for word in line.split(' ') {
        words.push(String::from_str(alloc, word)?)?;
    }
    Ok(words)
}

fn is_left(bytes: Option<&[u8]>, left: Left) -> bool {
    match (bytes, left) {
        (None, Left::Nothing) | (Some(_), Left::Something) => true,
        (Some(bytes), Left::Text(text)) => bytes == text.as_bytes(),
        _ => false,
    }
}
