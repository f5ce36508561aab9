//! Words that are no command.

ghost use Rattle.run_status.specs.declared.status.Status.TheVariants.{Usage};
ghost use Rattle.run_course.specs.Course.{Ends, says};

use command_words::UsageFault;
use dsa_model::NoMemory;
use dsa_outside::Files;
use run_course::{Command, Prepared, silent};
use run_status::Status;
use std::alloc::Global;

/// Words that are no command, for their first fault.
#[derive(Clone, Copy)]
pub(crate) struct Misuse {
    pub(crate) fault: UsageFault,
}

impl<'a> Command<'a> for Misuse {
    ghost course = { λ m. Ends (says (Usage m.fault)) };

    fn conclude<F: Files>(&self, alloc: Global, _files: &mut F) -> Result<Prepared<'a>, NoMemory> {
        silent(alloc, Status::Usage(self.fault))
    }
}
