//! The watches of the lines of a log, by line and in rows.

ghost use Rattle.std.specs.Prelude.{◌≡◌, ◌<◌, ◌≤◌, ℕ, [], IfOk, OnOk, Some, length, slice_get, slice_set, take};
ghost use Rattle.dsa_terms.specs.Claims.{IsIn};
ghost use Rattle.line_index.specs.declared.watch_row.Mark.{Mark as MarkTerm};
ghost use Rattle.line_index.specs.Rows.{AreAmong, AreAppended, AreFiled, AreWith, IsUnwatched, mark_of, row_of, with_note};
ghost use Rattle.line_index.specs.Watches.{row_at};
ghost use Rattle.line_index.specs.Watching.{AreExtended};

use crate::watch_row::{Mark, Row};
use dsa_model::{BUFFER_LIMIT, NoMemory};
use std::alloc::Global;
use std::marker::Model;

/// How many groups the bounds of a buffer have.
const GROUPS: usize = 16;

/// What lines have for a watch until they are looked at: of no buffer.
const NO_WATCH: (u32, u64) = (BUFFER_LIMIT, 0);

/// For each line its watch, a pair of buffer and bound in bytes, and for each buffer and group of
/// its bounds a row of marks, of the lines that watch such a bound. A row may have marks of lines
/// that watch another bound by now. Rows are made as they are needed. Contracts see the watches by
/// line, the rows by number, and the scale, by which a bound is multiplied to find its group.
#[derive(Drop)]
pub(crate) struct WatchTable {
    alloc: Global,
    scale: u64,
    watches: Vec<(u32, u64)>,
    rows: Vec<Row>,
}

impl Model for WatchTable {
    ghost use Rattle.line_index.specs.Rows.{AreFiled, WatchedLines};

    ghost Value = { WatchedLines };

    ghost view = { λ t. record {
      watches = t.watches.items;
      rows = t.rows.items;
      scale = t.scale;
    } };

    ghost invariant = { λ t. AreFiled t.watches.items t.rows.items t.scale };
}

impl WatchTable {
    /// No watches, for bounds that are mostly at most the capacity in bytes: it says how wide the
    /// groups are, and nothing else.
    pub(crate) fn new(alloc: Global, capacity: u64) -> WatchTable
        ensures watches { result.watches ≡ [] }
        ensures rows { result.rows ≡ [] }
    {
        WatchTable {
            alloc,
            scale: (1 << 63) / (capacity / GROUPS as u64 + 1) + 1,
            watches: Vec::new(alloc),
            rows: Vec::new(alloc),
        }
    }

    /// How many lines have a watch.
    pub(crate) fn len(&self) -> u64
        ensures { result ≡ length self.now.watches }
    {
        self.watches.len() as u64
    }

    /// The watch of the line of that number, which is below `len`.
    pub(crate) fn watch(&self, k: u64) -> (u32, u64)
        requires { k < length self.now.watches }
        ensures { slice_get self.now.watches k ≡ Some result }
    {
        self.watches[k as usize]
    }

    /// Gives the first so many lines a watch, of no buffer, if they have none.
    pub(crate) fn extend(&mut self, count: u64) -> Result<(), NoMemory>
        ensures extended { OnOk result (AreExtended self.old.watches self.new.watches count) }
        ensures rows { self.new.rows ≡ self.old.rows }
    {
        for _ in self.len()..count {
            self.watches.push(NO_WATCH)?;
        }
        Ok(())
    }

    /// The number of the row of the pair. Groups of bounds are about equally wide, and the last one
    /// has all higher bounds too.
    pub(crate) fn row_of(&self, b: u32, bound: u64) -> usize
        ensures { result ≡ row_of self.now.scale (b, bound) }
    {
        let group = (bound as u128 * self.scale as u128) >> 63;
        b as usize * GROUPS + group.min(GROUPS as u128 - 1) as usize
    }

    /// Makes the rows below that number, if they are not there.
    fn make_rows(&mut self, count: usize) -> Result<(), NoMemory>
        ensures watches { self.new.watches ≡ self.old.watches }
        ensures rows { (p : ℕ) → row_at self.new.rows p ≡ row_at self.old.rows p }
        ensures scale { self.new.scale ≡ self.old.scale }
        ensures count { OnOk result (count ≤ length self.new.rows) }
    {
        for _ in self.rows.len()..count {
            self.rows.push(Row::new(self.alloc))?;
        }
        Ok(())
    }

    /// Takes the mark into the row of the buffer and of its bound.
    fn add(&mut self, b: u32, mark: Mark) -> Result<(), NoMemory>
        ensures watches { self.new.watches ≡ self.old.watches }
        ensures rows { AreAppended self.old.rows self.new.rows }
        ensures scale { self.new.scale ≡ self.old.scale }
        ensures with { AreWith mark self.old.rows self.new.rows }
        ensures added { OnOk result
            (IsIn mark (row_at self.new.rows (row_of self.new.scale (b, mark.bound)))) }
    {
        let p = self.row_of(b, mark.bound);
        self.make_rows(p + 1)?;
        let row = &mut self.rows[p];
        row.push(mark)?;
        Ok(())
    }

    /// Gives the line of that number, which is below `len`, another watch, and its mark that note.
    pub(crate) fn file(&mut self, k: u64, watch: (u32, u64), note: u32) -> Result<(), NoMemory>
        requires { k < length self.old.watches }
        ensures watches { OnOk result (self.new.watches ≡ slice_set self.old.watches k watch) }
        ensures rows { OnOk result (AreAppended self.old.rows self.new.rows) }
        ensures scale { OnOk result (self.new.scale ≡ self.old.scale) }
        ensures with { OnOk result (AreWith (mark_of k watch.1 note) self.old.rows self.new.rows) }
    {
        let (b, bound) = watch;
        let line = k;
        self.add(b, Mark { bound, line, note })?;
        self.watches[k as usize] = watch;
        Ok(())
    }

    /// How many marks the row has.
    pub(crate) fn row_len(&self, p: usize) -> usize
        ensures value { result ≡ length (row_at self.now.rows p) }
        ensures filed { AreFiled self.now.watches self.now.rows self.now.scale }
    {
        if p < self.rows.len() {
            self.rows[p].len()
        } else {
            0
        }
    }

    /// The mark at a place of the row, which is below `row_len`.
    pub(crate) fn mark(&self, p: usize, i: usize) -> Mark
        requires { i < length (row_at self.now.rows p) }
        ensures { slice_get (row_at self.now.rows p) i ≡ Some result }
    {
        self.rows[p].at(i)
    }

    /// Gives the mark at a place of the row, which is below `row_len`, another note.
    pub(crate) fn set_note(&mut self, p: usize, i: usize, note: u32)
        requires { i < length (row_at self.old.rows p) }
        ensures watches { self.new.watches ≡ self.old.watches }
        ensures before { take i (row_at self.new.rows p) ≡ take i (row_at self.old.rows p) }
        ensures scale { self.new.scale ≡ self.old.scale }
        ensures with { (m : MarkTerm) → slice_get (row_at self.old.rows p) i ≡ Some m →
            AreWith (with_note m note) self.old.rows self.new.rows }
    {
        let row = &mut self.rows[p];
        row.set_note(i, note);
    }

    /// Takes the mark at a place out of the row. It is below `row_len`, and no line has that watch.
    pub(crate) fn take(&mut self, p: usize, i: usize)
        requires in_row { i < length (row_at self.old.rows p) }
        requires unwatched { IsUnwatched self.old p i }
        ensures watches { self.new.watches ≡ self.old.watches }
        ensures before { take i (row_at self.new.rows p) ≡ take i (row_at self.old.rows p) }
        ensures scale { self.new.scale ≡ self.old.scale }
        ensures among { AreAmong self.old.rows self.new.rows }
    {
        let row = &mut self.rows[p];
        row.take(i);
    }
}
