//! A sink in memory that never fails.

ghost use Rattle.std.specs.Prelude.{◌≡◌, ◌++◌, [], Some, OnOk, OnErr, IsErrOf};

use crate::{Sink, SinkFault};
use std::alloc::Global;
use std::marker::Model;

/// A sink in memory that never fails. Its number of faults is always 0. Seen as the bytes that it
/// has taken.
#[derive(Drop)]
pub struct SoundSink {
    content: Vec<u8>,
}

impl Model for SoundSink {
    ghost use Rattle.std.specs.Prelude.{List, ℕ};

    ghost Value = { List ℕ };

    ghost view = { λ s. s.content.items };
}

impl SoundSink {
    /// A sink that has taken no bytes. It takes no memory; later calls take it from `alloc`.
    pub fn new(alloc: Global) -> SoundSink
        ensures { result ≡ [] }
    {
        SoundSink {
            content: Vec::new(alloc),
        }
    }

    /// All bytes that were put, in order. It takes no memory.
    pub fn content(&self) -> &[u8]
        ensures { result.now ≡ self.now }
    {
        self.content.as_slice()
    }
}

impl Sink for SoundSink {
    ghost seen = { λ s. record { content = Some s; faults = 0 } };

    fn put(&mut self, bytes: &[u8]) -> Result<(), SinkFault>
        ensures appended { OnOk result (self.new ≡ self.old ++ bytes.now) }
        ensures sound { ¬ IsErrOf result SinkFault.Failed }
        ensures unchanged { OnErr result (self.new ≡ self.old) }
    {
        self.content.extend_from_slice(bytes)?;
        Ok(())
    }
}
