//! The standard output.

ghost use Rattle.std.specs.Prelude.{◌≡◌, ◌≤◌, None, OnOk, IsErrOf};
ghost use Rattle.dsa_model.specs.Counts.{one_more};

use crate::transfer::{counted, write_whole};
use crate::{Sink, SinkFault};
use std::io;

/// The standard output, with a count of the calls of the system that failed, which is its number of
/// faults. The count stays at 2^64 - 1 once it is there. Nothing is told of what was printed.
#[derive(Drop)]
pub struct StdSink<'a, R: Print> {
    rt: &'a R,
    faults: u64,
}

impl<'a, R: Print> StdSink<'a, R> {
    /// What the runtime prints to. No call has failed. It takes no memory.
    pub fn new(rt: &'a R) -> StdSink<'a, R>
        ensures { result.faults ≡ 0 }
    {
        StdSink { rt, faults: 0 }
    }
}

impl<'a, R: Print> Sink for StdSink<'a, R> {
    ghost seen = { λ sink. record { content = None; faults = sink.faults } };

    fn put(&mut self, bytes: &[u8]) -> Result<(), SinkFault>
        ensures failed { IsErrOf result SinkFault.Failed →
            self.new.faults ≡ one_more self.old.faults }
        ensures cause { ¬ IsErrOf result SinkFault.NoMemory }
        ensures unchanged { OnOk result (self.new.faults ≡ self.old.faults) }
        ensures count { self.old.faults ≤ self.new.faults }
    {
        let put = write_whole(&mut io::writer(self.rt), bytes);
        Ok(counted(&mut self.faults, put)?)
    }
}
