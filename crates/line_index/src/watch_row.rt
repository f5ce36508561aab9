//! The lines that watch a bound of one buffer and group.

ghost use Rattle.std.specs.Prelude.{◌≡◌, ◌<◌, [], ◌∷◌, ◌++◌, OnErr, OnOk, Some, length, slice_get, slice_set};
ghost use Rattle.std.specs.List.{swap_remove};
ghost use Rattle.line_index.specs.declared.watch_row.Mark.{Mark as MarkTerm};
ghost use Rattle.line_index.specs.Rows.{with_note};

use dsa_model::NoMemory;
use std::alloc::Global;
use std::marker::Model;

/// That a line watches that bound of the row's buffer.
#[derive(Clone, Copy)]
pub(crate) struct Mark {
    /// The bound, in bytes.
    pub(crate) bound: u64,
    /// The number of the line.
    pub(crate) line: u64,
    /// The note, a buffer of the line: the one that a claim which met the mark was last found to
    /// lack, and any until then. The line covers no claim that lacks it.
    pub(crate) note: u32,
}

/// Marks of one buffer and group. Contracts see the list.
#[derive(Drop)]
pub(crate) struct Row {
    marks: Vec<Mark>,
}

impl Model for Row {
    ghost use Rattle.std.specs.Prelude.{List};
    ghost use Rattle.line_index.specs.declared.watch_row.Mark.{Mark as MarkTerm};

    ghost Value = { List MarkTerm };

    ghost view = { λ r. r.marks.items };
}

impl Row {
    /// A row without marks.
    pub(crate) fn new(alloc: Global) -> Row
        ensures { result ≡ [] }
    {
        Row {
            marks: Vec::new(alloc),
        }
    }

    /// How many marks it has.
    pub(crate) fn len(&self) -> usize
        ensures { result ≡ length self.now }
    {
        self.marks.len()
    }

    /// The mark at a place, which is below `len`.
    pub(crate) fn at(&self, i: usize) -> Mark
        requires { i < length self.now }
        ensures { slice_get self.now i ≡ Some result }
    {
        self.marks[i]
    }

    /// Takes the mark in, behind the others.
    pub(crate) fn push(&mut self, mark: Mark) -> Result<(), NoMemory>
        ensures appended { OnOk result (self.new ≡ self.old ++ mark ∷ []) }
        ensures unchanged { OnErr result (self.new ≡ self.old) }
    {
        self.marks.push(mark)?;
        Ok(())
    }

    /// Gives the mark at a place, which is below `len`, another note.
    pub(crate) fn set_note(&mut self, i: usize, note: u32)
        requires { i < length self.old }
        ensures { (m : MarkTerm) → slice_get self.old i ≡ Some m →
            self.new ≡ slice_set self.old i (with_note m note) }
    {
        let Mark { bound, line, .. } = self.marks[i];
        self.marks[i] = Mark { bound, line, note };
    }

    /// Takes the mark at a place out, which is below `len`. The last one comes there.
    pub(crate) fn take(&mut self, i: usize)
        requires { i < length self.old }
        ensures { (m : MarkTerm) → self.new ≡ swap_remove self.old i m }
    {
        let _mark = self.marks.swap_remove(i);
    }
}
