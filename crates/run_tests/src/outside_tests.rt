//! Files and sinks: each call with ample memory, and what no contract sees: files of the system and
//! their faults.

use dsa_outside::{
    DiskFiles, FileFault, Files, MemoryFiles, MemorySink, Sink, SinkFault, SoundFiles, SoundSink,
    StdSink,
};
use std::alloc::Global;
use std::fmt::Display;
use std::test::Fail;
use std::{fs, io};

const FOLDER: &str = "outside_tests";

const PATH: &str = "outside_tests/file";

/// Makes an empty folder, also where there is one by that name.
pub(crate) fn make_anew(rt: &HostRuntime, folder: &str) -> io::Result<()> {
    let _ = fs::remove_dir_all(rt, folder);
    fs::create_dir(rt, folder)
}

/// Whether the bytes are read back once they are written, and the first three of them.
fn are_given_back<F: Files>(files: &mut F, bytes: &[u8]) -> Result<bool, FileFault> {
    files.write(PATH, bytes)?;
    let whole = files.read(PATH, 70001)?.as_slice() == bytes;
    Ok(whole && files.read(PATH, 3)?.as_slice() == &bytes[..bytes.len().min(3)])
}

/// Whether files that never fail give back what was written last.
fn are_given_back_by_sound_files(alloc: Global) -> Result<bool, FileFault> {
    let mut files = SoundFiles::new(alloc);
    files.insert(PATH, b"old")?;
    are_given_back(&mut files, b"newer")
}

#[test]
fn sound_files_hold_what_was_written_last(rt: HostRuntime) {
    assert_eq!(rt; are_given_back_by_sound_files(rt.alloc()), Ok(true));
}

/// The same of files of which calls 0 and 5 fail, a write and a read, thrice.
fn are_given_back_by_memory_files(
    alloc: Global,
) -> Result<[Result<bool, FileFault>; 3], FileFault> {
    let mut files = MemoryFiles::new(alloc, [5, 0].to_vec(alloc)?);
    files.insert(PATH, b"old")?;
    let first = are_given_back(&mut files, b"newer");
    let second = are_given_back(&mut files, b"newer");
    Ok([first, second, are_given_back(&mut files, b"newer")])
}

#[test]
fn calls_of_memory_files_fail_by_their_numbers(rt: HostRuntime) {
    let failed = Err(FileFault::Failed);
    let found = are_given_back_by_memory_files(rt.alloc());
    assert_eq!(rt; found, Ok([failed, Ok(true), failed]));
}

/// What is told of three puts.
fn put_thrice<S: Sink>(sink: &mut S) -> [Result<(), SinkFault>; 3] {
    let first = sink.put(b"one ");
    let second = sink.put(b"two ");
    [first, second, sink.put(b"three")]
}

/// Whether a sink that never fails takes all that is put.
fn takes_all(alloc: Global) -> bool {
    let mut sink = SoundSink::new(alloc);
    put_thrice(&mut sink) == [Ok(()), Ok(()), Ok(())]
        && sink.content() == b"one two three".as_slice()
}

/// Whether a sink of which call 1 fails takes what else is put.
fn takes_the_rest(alloc: Global) -> Result<bool, SinkFault> {
    let mut sink = MemorySink::new(alloc, [1].to_vec(alloc)?);
    let told = put_thrice(&mut sink);
    Ok(
        told == [Ok(()), Err(SinkFault::Failed), Ok(())]
            && sink.content() == b"one three".as_slice(),
    )
}

#[test]
fn a_put_that_fails_appends_nothing(rt: HostRuntime) {
    assert!(rt; takes_all(rt.alloc()));
    assert_eq!(rt; takes_the_rest(rt.alloc()), Ok(true));
}

/// Whether nothing is read where no file is, nor read or written where a folder is.
fn fail_without_a_file<F: Files>(files: &mut F) -> bool {
    let failed = Some(FileFault::Failed);
    files.read(PATH, 9).err() == failed
        && files.read(FOLDER, 9).err() == failed
        && files.write(FOLDER, b"x").err() == failed
}

/// Whether three texts are given back, one after the other, of which the first is a long one.
fn are_texts_given_back<F: Files>(files: &mut F, alloc: Global) -> Result<bool, FileFault> {
    let long = vec![in alloc; 7u8; 70001]?;
    Ok(
        are_given_back(files, &long)?
            && are_given_back(files, b"short")?
            && are_given_back(files, b"")?,
    )
}

/// Whether files of the system give back what was written, and fail where no file is.
fn are_given_back_by_the_system(rt: &HostRuntime) -> io::Result<bool> {
    make_anew(rt, FOLDER)?;
    let mut files = DiskFiles::new(rt, rt.alloc());
    let fail = fail_without_a_file(&mut files);
    let given_back = are_texts_given_back(&mut files, rt.alloc());
    fs::remove_dir_all(rt, FOLDER)?;
    Ok(fail && given_back == Ok(true))
}

#[test]
fn real_files_give_back_what_was_written(rt: HostRuntime) -> Result<(), Fail> {
    assert!(rt; are_given_back_by_the_system(&rt)?);
    Ok(())
}

/// A standard output that is closed.
#[derive(Drop)]
struct Closed;

impl Print for Closed {
    fn print<D: Display + Drop>(&self, _value: D) -> io::Result<()> {
        Err(io::ErrorKind::BrokenPipe.into())
    }

    fn println<D: Display + Drop>(&self, _value: D) -> io::Result<()> {
        Err(io::ErrorKind::BrokenPipe.into())
    }

    fn write_all(&self, _bytes: &[u8]) -> io::Result<()> {
        Err(io::ErrorKind::BrokenPipe.into())
    }
}

#[test]
fn a_put_to_a_closed_output_fails(rt: HostRuntime) {
    assert_eq!(rt; StdSink::new(&rt).put(b""), Ok(()));
    assert_eq!(rt; StdSink::new(&Closed).put(b"x"), Err(SinkFault::Failed));
}
