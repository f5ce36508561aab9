//! The search as a decider.

ghost use Rattle.std.specs.Prelude.{◌≡◌, IfOk};
ghost use Rattle.dsa_terms.specs.Parts.{parts as parts_of};
ghost use Rattle.dsa_model.specs.Limits.{number_limit};
ghost use Rattle.lifetime.specs.SectionList.{AreSectionsOf};
ghost use Rattle.search_core.specs.Courses.{at_start};
ghost use Rattle.search_core.specs.Meters.{AreWithin};

use crate::Budget;
use crate::meter::Meter;
use crate::whole::search_parts;
use branching::{Task, TwinMarks, greatest_size};
use dsa_model::{Instance, NoMemory};
use lifetime::Sections;
use refute_log::{Decided, Decider};
use split_sections::Parts;
use std::alloc::Global;
use std::marker::Model;

/// Decides capacities of one instance by a search in a fixed order, with a budget for all of them.
#[derive(Drop)]
pub struct Search<'a> {
    alloc: Global,
    instance: &'a Instance,
    sections: &'a Sections,
    parts: &'a Parts,
    twins: TwinMarks,
    meter: Meter,
    spends: u64,
}

impl<'a> Model for Search<'a> {
    ghost use Rattle.std.specs.Prelude.{◌≡◌};
    ghost use Rattle.dsa_terms.specs.Parts.{parts as parts_of};
    ghost use Rattle.lifetime.specs.SectionList.{AreSectionsOf};
    ghost use Rattle.search_core.specs.Courses.{Course};
    ghost use Rattle.branching.specs.TwinMarks.{AreTwinMarks};

    ghost Value = { Course };

    ghost view = { λ s. record { subject = s.instance.now; units = s.meter; spends = s.spends } };

    ghost invariant = { λ s. let I = s.instance.now in
        (s.parts.now ≡ parts_of I) × AreSectionsOf I s.sections.now × AreTwinMarks I s.twins };
}

impl<'a> Search<'a> {
    /// A search that has used nothing. The caller owes that the sections and the parts are those of
    /// the instance.
    pub fn new(
        alloc: Global,
        instance: &'a Instance,
        sections: &'a Sections,
        parts: &'a Parts,
        budget: Budget,
    ) -> Result<Search<'a>, NoMemory>
        requires sections { AreSectionsOf instance.now sections.now }
        requires parts { parts.now ≡ parts_of instance.now }
        ensures { IfOk result (λ search. search ≡ at_start instance.now budget) }
    {
        let twins = TwinMarks::of(alloc, instance)?;
        Ok(Search {
            alloc,
            instance,
            sections,
            parts,
            twins,
            meter: Meter::new(budget.most()),
            spends: 0,
        })
    }

    /// The units used so far where the budget has a number of them, and else 0.
    pub fn used(&self) -> u64
        ensures value { result ≡ self.now.units.used }
        ensures within { AreWithin self.now.units }
    {
        self.meter.used()
    }
}

impl<'a> Decider for Search<'a> {
    ghost use Rattle.std.specs.Prelude.{◌≡◌, ◌+◌, ◌<◌, ◌≤◌, IfOk, OnErr, length};
    ghost use Rattle.dsa_terms.specs.Parts.{whole_work};
    ghost use Rattle.dsa_model.specs.Counts.{Rose};
    ghost use Rattle.refute_log.specs.Decided.{IfSpent, IsRight, Settles, TurnsOut, answer_of};
    ghost use Rattle.search_core.specs.Decisions.{IsGiven, allowance_of, charge_of, turn_of};
    ghost use Rattle.search_core.specs.Meters.{AreMore};
    ghost use Rattle.search_core.specs.Outcomes.{LinesAreCounted, UnlessSpent, spends_after};

    ghost subject = { λ s. s.subject };

    ghost spends = { λ s. s.spends };

    ghost units = { λ s. s.units.used };

    ghost allowance = { λ s. allowance_of s.units.most };

    ghost gives = { IsGiven };

    ghost most = { whole_work };

    ghost turn = { turn_of };

    ghost charge = { charge_of };

    /// As the trait says. `spends` counts the answers Spent and nothing else, and any other answer
    /// for an instance with a buffer takes a unit, where the budget has a number of them.
    fn decide(&mut self, capacity: u64) -> Result<Decided, NoMemory>
        requires { capacity ≤ number_limit }
        ensures subject { self.new.subject ≡ self.old.subject }
        ensures allowance { let most = self.old.units.most in
            allowance_of self.new.units.most ≡ allowance_of most }
        ensures spends { self.old.spends ≤ self.new.spends }
        ensures units { self.old.units.used ≤ self.new.units.used }
        ensures used { let most = whole_work self.old.subject capacity in
            self.new.units.used ≤ self.old.units.used + most }
        ensures right { IfOk result (λ d. IsRight self.old.subject capacity d) }
        ensures settles { IfOk result (Settles self.old.subject capacity) }
        ensures given { IfOk result (λ d. IsGiven self.old.subject capacity (answer_of d)) }
        ensures turned { let I = self.old.subject in
            IfOk result (λ d. TurnsOut I (turn_of I capacity) d) }
        ensures spent { IfOk result (λ d. IfSpent d (Rose self.old.spends self.new.spends)) }
        ensures fewer { let limit = self.old.units.used + whole_work self.old.subject capacity in
            IfOk result (λ d. IfSpent d (self.new.units.used < limit)) }
        ensures exhausted { let most = self.old.units.most in
            IfOk result (λ d. IfSpent d (allowance_of most ≤ self.new.units.used)) }
        ensures charged { let most = self.old.units.most in
            let least = charge_of self.old.subject (allowance_of most) in
            IfOk result (λ d. self.old.units.used + least (answer_of d) ≤ self.new.units.used) }
        ensures counted { let n = self.old.spends in
            IfOk result (λ d. self.new.spends ≡ spends_after n d) }
        ensures uncounted { OnErr result (self.new.spends ≡ self.old.spends) }
        ensures taken { 0 < length self.old.subject →
            IfOk result (UnlessSpent (AreMore self.old.units self.new.units)) }
        ensures lines { IfOk result (LinesAreCounted self.old.units self.new.units) }
    {
        let _count = self.instance.len();
        let task = Task {
            instance: self.instance,
            twins: &self.twins,
            capacity,
            size: greatest_size(self.instance),
        };
        let meter = &mut self.meter;
        let decided = search_parts(self.alloc, &task, meter, self.sections, self.parts)?;
        if let Decided::Spent = decided {
            self.spends = self.spends.saturating_add(1);
        }
        Ok(decided)
    }
}
