//! A sink in memory of which chosen puts fail.

ghost use Rattle.std.specs.Prelude.{◌≡◌, ◌≤◌, ◌++◌, ◌↔◌, [], Some, OnOk, IsErrOf, IsTrue};
ghost use Rattle.dsa_outside.specs.Calls.{after_call, is_due};

use crate::calls::Calls;
use crate::{Sink, SinkFault};
use std::alloc::Global;
use std::marker::Model;

/// A sink in memory. The puts whose numbers are listed fail and append nothing. Seen as the bytes
/// that it has taken, the list of the puts that are to fail, the number of the next put, and how
/// many failed, which is its number of faults.
#[derive(Drop)]
pub struct MemorySink {
    content: Vec<u8>,
    calls: Calls,
}

impl Model for MemorySink {
    ghost use Rattle.dsa_outside.specs.MemoryState.{SinkState};

    ghost Value = { SinkState };

    ghost view = { λ s. record { content = s.content.items; calls = s.calls } };
}

impl MemorySink {
    /// A sink that has taken no bytes. It takes no memory; later calls take it from `alloc`.
    ///
    /// Puts are counted from 0. Those whose numbers are in `failing` fail. Every put after number
    /// 2^64 - 1 has that number too. A put that answers `NoMemory` is not counted.
    pub fn new(alloc: Global, failing: Vec<u64>) -> MemorySink
        ensures { result ≡ record {
          content = [];
          calls = record { failing = failing.items; next = 0; faults = 0 };
        } }
    {
        MemorySink {
            content: Vec::new(alloc),
            calls: Calls::new(failing),
        }
    }

    /// All bytes that were put, in order. It takes no memory.
    pub fn content(&self) -> &[u8]
        ensures { result.now ≡ self.now.content }
    {
        self.content.as_slice()
    }
}

impl Sink for MemorySink {
    ghost seen = { λ s. record { content = Some s.content; faults = s.calls.faults } };

    fn put(&mut self, bytes: &[u8]) -> Result<(), SinkFault>
        ensures appended { OnOk result (self.new ≡ record {
          content = self.old.content ++ bytes.now;
          calls = after_call self.old.calls;
        }) }
        ensures failed { IsErrOf result SinkFault.Failed ↔ IsTrue (is_due self.old.calls) }
        ensures refused { IsErrOf result SinkFault.Failed →
            self.new ≡ record self.old { calls = after_call self.old.calls } }
        ensures no_memory { IsErrOf result SinkFault.NoMemory → self.new ≡ self.old }
        ensures count { self.old.calls.faults ≤ self.new.calls.faults }
    {
        if self.calls.is_due() {
            self.calls.count();
            return Err(SinkFault::Failed);
        }
        self.content.extend_from_slice(bytes)?;
        self.calls.count();
        Ok(())
    }
}
