//! `trial`: a made instance, and what is found of it.

ghost use Rattle.std.specs.Prelude.{◌≡◌, ◌<◌, ◌≤◌, ◌++◌, IfOk, Ok};
ghost use Rattle.dsa_model.specs.Buffer.{buffer_limit};
ghost use Rattle.dsa_model.specs.Fails.{UnlessNoMemory};
ghost use Rattle.csv_instance.specs.Records.{table_of};
ghost use Rattle.csv_instance.specs.Parse.{parse};
ghost use Rattle.layout_report.specs.Facts.{bounds_text};
ghost use Rattle.make_instance.specs.Made.{made_text};
ghost use Rattle.run_status.specs.Lines.{line};
ghost use Rattle.run_course.specs.Prepares.{outcome_of};
ghost use Rattle.fact_reports.specs.Reporting.{IsVerdict, ShowsTrial, trial};

use csv_instance::{Table, read_instance};
use dsa_model::{Fail, Instance, NoMemory};
use dsa_outside::Files;
use layout_report::{Facts, bounds_report};
use make_instance::{MakeFault, make};
use min_capacity::Least;
use planner::{facts_of, least_capacity};
use run_course::{Command, Prepared, shown, silent};
use run_status::{Status, status_line};
use std::alloc::Global;

/// The table of the made instance, which its text always gives.
fn made_table(alloc: Global, seed: u64, count: u64) -> Result<Table, Fail<MakeFault>>
    ensures made { UnlessNoMemory result (λ table. table ≡ table_of (made_text seed count))
        (λ _. buffer_limit < count) }
    ensures few { IfOk result (λ _. count ≤ buffer_limit) }
{
    let text = make(alloc, seed, count)?;
    match read_instance(alloc, text.as_slice()) {
        Ok(table) => Ok(table),
        Err(Fail::Fault(_)) => unreachable!(),
        Err(Fail::NoMemory) => Err(Fail::NoMemory),
    }
}

/// The status that tells what is found of the least capacity within so many units.
fn verdict(alloc: Global, instance: &Instance, steps: u64) -> Result<Status, NoMemory>
    ensures { IfOk result (IsVerdict instance.now steps) }
{
    match least_capacity(alloc, instance, Some(steps))? {
        Least::Exact(bracket) => Ok(Status::Least {
            capacity: bracket.high,
        }),
        Least::Open(bracket) => Ok(Status::Open {
            low: bracket.low,
            high: bracket.high,
        }),
    }
}

/// The report of the instance's facts, and then the line of its verdict.
fn trial_report(alloc: Global, facts: &Facts, verdict: Status) -> Result<Vec<u8>, NoMemory>
    ensures { IfOk result (λ text. text.items ≡ bounds_text facts.now ++ line verdict) }
{
    let mut text = bounds_report(alloc, facts)?;
    let line = status_line(alloc, verdict)?;
    text.extend_from_slice(line.as_bytes())?;
    Ok(text)
}

/// Makes the instance of the seed with so many buffers, and shows its facts and the verdict on its
/// least capacity within so many units. It touches no file.
#[derive(Clone, Copy)]
pub struct Trial {
    pub seed: u64,
    pub count: u64,
    pub steps: u64,
}

/// What is shown of the made instance.
fn tried<'a>(alloc: Global, words: &Trial, instance: &Instance) -> Result<Prepared<'a>, NoMemory>
    requires made { parse (table_of (made_text words.now.seed words.now.count)) ≡ Ok instance.now }
    ensures { IfOk result (λ p.
        ShowsTrial words.now.seed words.now.count words.now.steps (outcome_of p)) }
{
    let facts = facts_of(alloc, instance)?;
    let verdict = verdict(alloc, instance, words.steps)?;
    let text = trial_report(alloc, &facts, verdict)?;
    Ok(shown(text))
}

impl<'a> Command<'a> for Trial {
    ghost course = { λ t. trial t.seed t.count t.steps };

    fn conclude<F: Files>(&self, alloc: Global, _files: &mut F) -> Result<Prepared<'a>, NoMemory> {
        let count = self.count;
        match made_table(alloc, self.seed, count) {
            Ok(table) => tried(alloc, self, table.instance()),
            Err(Fail::Fault(_)) => silent(alloc, Status::TooMany { count }),
            Err(Fail::NoMemory) => Err(NoMemory),
        }
    }
}
