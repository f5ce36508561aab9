//! The names of a command's files.

/// The names of the files of a command that decides: the input, the output, and the log's file.
#[derive(Clone, Copy)]
pub struct Names<'a> {
    pub input: &'a str,
    pub output: &'a str,
    pub log: &'a str,
}
