//! What a command is to a run.

ghost use Rattle.std.specs.Prelude.{◌≡◌, IfOk};
ghost use Rattle.dsa_outside.specs.Faults.{NoneFell};
ghost use Rattle.run_course.specs.Course.{Course, Comes};
ghost use Rattle.run_course.specs.Prepares.{outcome_of};

use crate::Prepared;
use dsa_model::NoMemory;
use dsa_outside::Files;
use std::alloc::Global;

/// A command with the values of its options. `course` says how it goes: which files it reads, in
/// which order, and what it concludes from their bytes.
pub trait Command<'a> {
    ghost course: { Self → Course };

    /// What its values are known to meet.
    ghost is_asked: { Self → Type 0 } = { λ _. Unit {0} };

    /// Reads the files of the course and makes all texts of its outcome.
    fn conclude<F: Files>(&self, alloc: Global, files: &mut F) -> Result<Prepared<'a>, NoMemory>
        requires asked { is_asked self.now }
        ensures comes { IfOk result (λ p. Comes (F.seen files.old) (F.seen files.new)
            (course self.now) (outcome_of p)) }
        ensures files { (F.seen files.new).held ≡ (F.seen files.old).held }
        ensures counts { NoneFell (F.seen files.old).faults (F.seen files.new).faults };
}
