//! The outside of the planner: files by name and a sink of bytes, each with a count of its faults.
//! `DiskFiles` and `StdSink` are the real ones. The others stand in memory: `SoundFiles` and
//! `SoundSink` never fail but for a file that is not there, and `MemoryFiles` and `MemorySink` fail
//! at chosen calls.
#![tactic(auto)]

mod calls;
mod disk_files;
mod disk_write;
mod draft;
mod fault;
mod files;
mod memory_files;
mod memory_sink;
mod part;
mod paths;
mod sink;
mod sound_files;
mod sound_sink;
mod std_sink;
mod store;
mod transfer;

pub use disk_files::DiskFiles;
pub use draft::{Draft, replace};
pub use fault::{FileFault, SinkFault};
pub use files::Files;
pub use memory_files::MemoryFiles;
pub use memory_sink::MemorySink;
pub use sink::Sink;
pub use sound_files::SoundFiles;
pub use sound_sink::SoundSink;
pub use std_sink::StdSink;
