//! The choices of a claim, taken one after another.

ghost use Rattle.std.specs.Prelude.{◌≡◌, OnOk, length, ◌==◌};
ghost use Rattle.branching.specs.Tries.{IsLeft, asked_to, chosen_of, noted_by, tried_by, untried};

use crate::notes::{Notes, Refuted};
use dsa_model::NoMemory;
use std::alloc::Global;
use std::marker::Model;

/// For how many choices at most the first note takes room: most claims have fewer.
const ROOM: usize = 16;

/// The choices of a claim in order, and for the first ones of them the lines by which they are
/// refuted. Below the number `asked` no line of the log covers the claim.
#[derive(Drop)]
pub struct Frame {
    order: Vec<u32>,
    notes: Notes,
}

impl Model for Frame {
    ghost use Rattle.branching.specs.Tries.{Tried, tried_by};

    ghost Value = { Tried };

    ghost view = { λ f. tried_by f.order.items f.notes };
}

impl Frame {
    /// These choices of a claim, none of them refuted. The first `asked` lines do not cover the
    /// claim.
    pub fn new(alloc: Global, order: Vec<u32>, asked: u64) -> Frame
        ensures { result ≡ untried order.items asked }
    {
        let notes = Notes {
            refuted: Vec::new(alloc),
            asked,
        };
        Frame { order, notes }
    }

    /// These choices of a claim, with what is noted of them.
    pub fn of(order: Vec<u32>, notes: Notes) -> Frame
        ensures { result ≡ tried_by order.items notes }
    {
        Frame { order, notes }
    }

    /// The choices, and what is noted of them.
    pub fn parts(self) -> (Vec<u32>, Notes)
        ensures { self ≡ tried_by result.0.items result.1 }
    {
        (self.order, self.notes)
    }

    /// Notes that so many lines were asked.
    pub fn ask_to(&mut self, asked: u64)
        ensures { self.new ≡ asked_to self.old asked }
    {
        self.notes.asked = asked;
    }

    /// Whether all choices are refuted.
    pub fn is_done(&self) -> bool
        ensures { result ≡ (length self.now.refuted == length self.now.order) }
    {
        self.notes.refuted.len() == self.order.len()
    }

    /// The first choice that is not refuted. The caller sees to it that one is left.
    pub fn chosen(&self) -> u32
        requires { IsLeft self.now }
        ensures { result ≡ chosen_of self.now }
    {
        self.order[self.notes.refuted.len()]
    }

    /// Notes the line by which that choice is refuted. The caller sees to it that one is left.
    pub fn note(&mut self, line: u64) -> Result<(), NoMemory>
        requires { IsLeft self.old }
        ensures { OnOk result (self.new ≡ noted_by self.old line) }
    {
        let buffer = self.chosen();
        if self.notes.refuted.is_empty() {
            self.notes.refuted.reserve(self.order.len().min(ROOM))?;
        }
        self.notes.refuted.push(Refuted { buffer, line })?;
        Ok(())
    }

    /// The choices that are refuted, each with its line.
    pub fn refuted(&self) -> &[Refuted]
        ensures { result.now ≡ self.now.refuted }
    {
        self.notes.refuted.as_slice()
    }
}
