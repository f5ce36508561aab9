//! The one call.

ghost use Rattle.std.specs.Prelude.{◌≡◌, map, string_bytes, Ok};
ghost use Rattle.command_words.specs.Requests.{Request as RequestTerm, request_of};
ghost use Rattle.run_course.specs.Answers.{Answers};
ghost use Rattle.dsaplan_core.specs.Courses.{course, course_with};
ghost use Rattle.dsaplan_core.specs.Theorem.{Headline};
ghost use Rattle.dsaplan_core.specs.Choice.{Choice};
ghost use Rattle.dsaplan_core.specs.Complete.{IsConcluded, IsUndisturbed};

use crate::misuse::Misuse;
use checking::{Refute, Trim, Upgrade};
use command_words::{OptionName, Request, Role, Verb, read_words};
use deciding::{Least, Solve};
use dsa_outside::{Files, Sink};
use explaining::Core;
use fact_reports::{Bounds, Inspect, Reporting, Trial};
use importing::{Import, Unroll};
use judging::{Draw, Report, Verify};
use packing::Pack;
use planning::Classes;
use run_course::perform;
use run_status::Status;
use std::alloc::Global;
use writings::Names;

/// Does what the command asks for.
fn answer<F: Files, S: Sink>(
    alloc: Global,
    request: &Request<'_>,
    files: &mut F,
    out: &mut S,
) -> Status
    ensures { Answers (course_with request.now.verb request.now.pairs)
        (F.seen files.old) (F.seen files.new) (S.seen out.old) (S.seen out.new) result }
{
    let capacity = request.number(OptionName::Capacity);
    let input = request.name(Role::Input);
    let output = request.name(Role::Output);
    let log = request.name(Role::Log);
    let layout = request.name(Role::Layout);
    let steps = request.number_given(OptionName::Steps);
    let names = Names { input, output, log };
    match request.verb() {
        Verb::Solve => {
            let solve = Solve {
                capacity,
                steps,
                names,
            };
            perform(alloc, &solve, files, out)
        }
        Verb::Least => perform(alloc, &Least { steps, names }, files, out),
        Verb::Pack => {
            let pack = Pack {
                capacity: request.number_given(OptionName::Capacity),
                steps: request.number(OptionName::Steps),
                names,
            };
            perform(alloc, &pack, files, out)
        }
        Verb::Verify => {
            let verify = Verify {
                capacity,
                input,
                layout,
            };
            perform(alloc, &verify, files, out)
        }
        Verb::Refute => perform(alloc, &Refute { input, log }, files, out),
        Verb::Trim => {
            let trim = Trim { input, log, output };
            perform(alloc, &trim, files, out)
        }
        Verb::Upgrade => {
            let upgrade = Upgrade { input, log, output };
            perform(alloc, &upgrade, files, out)
        }
        Verb::Bounds => {
            let report = Bounds;
            perform(alloc, &Reporting { input, report }, files, out)
        }
        Verb::Inspect => {
            let report = Inspect;
            perform(alloc, &Reporting { input, report }, files, out)
        }
        Verb::Report => perform(alloc, &Report { input, layout }, files, out),
        Verb::Draw => {
            let draw = Draw {
                input,
                layout,
                output,
            };
            perform(alloc, &draw, files, out)
        }
        Verb::Import => {
            let trace = request.name(Role::Trace);
            perform(alloc, &Import { trace, output }, files, out)
        }
        Verb::Unroll => {
            let unroll = Unroll {
                period: request.number(OptionName::Period),
                input,
                output,
            };
            perform(alloc, &unroll, files, out)
        }
        Verb::Classes => perform(alloc, &Classes { input, output }, files, out),
        Verb::Core => perform(alloc, &Core { capacity, names }, files, out),
        Verb::Trial => {
            let trial = Trial {
                seed: request.number(OptionName::Seed),
                count: request.number(OptionName::Count),
                steps: request.number(OptionName::Steps),
            };
            perform(alloc, &trial, files, out)
        }
    }
}

/// Does what the words ask for, or tells their first fault.
fn execute<F: Files, S: Sink>(alloc: Global, words: &[String], files: &mut F, out: &mut S) -> Status
    ensures { Answers (course (map string_bytes words.now))
        (F.seen files.old) (F.seen files.new) (S.seen out.old) (S.seen out.new) result }
{
    match read_words(words) {
        Ok(request) => answer(alloc, &request, files, out),
        Err(fault) => perform(alloc, &Misuse { fault }, files, out),
    }
}

/// Does what the words (those after the program's name) ask for, with these files, and prints one
/// text last. The status says which step decided, in this order: the words, the count of a trial,
/// reading the input or the trace, its length, its records or lines, reading the second file, its
/// length, its content, deciding, writing the output, writing the log, printing; want of memory may
/// end any step.
/// `alloc` is where all memory comes from. The problem is Dynamic Storage Allocation, SR2 of Garey
/// and Johnson.
pub fn run<F: Files, S: Sink>(alloc: Global, words: &[String], files: &mut F, out: &mut S) -> Status
    // The words go as their command goes, or their first fault is told: what is read, concluded,
    // written and printed, in that order, and what is left where one of these fails. What a verdict
    // means is part of it: the laws `judged` and `derived` tell it.
    ensures answer { Answers (course (map string_bytes words.now))
        (F.seen files.old) (F.seen files.new) (S.seen out.old) (S.seen out.new) result }

    // The layout that is written with 'feasible', 'least C' or 'open L H' is aligned, within its
    // capacity and free of overlap at every moment; with 'infeasible C', 'least C' or 'open L H'
    // the written log, at C, at C - 1 unless C is zero, or at L - 1, is accepted, and an accepted
    // log means that no layout fits.
    ensures headline { Headline (map string_bytes words.now)
        (F.seen files.old) (F.seen files.new) result }

    // With `solve` and `least` the layout is the plan, the log is without waste, and steps bound
    // both; 'open' comes only where the steps may be too few. With `pack` no line of the log is
    // needless, and a step is given for each, or it is the lower bound's; the ends of 'open' are no
    // worse than that bound and the best start.
    ensures choice { Choice (map string_bytes words.now)
        (F.seen files.old) (F.seen files.new) result }

    // Where the words are a command and nothing outside fails, the command concludes from what the
    // files that it reads hold, if they are there and within their limits, unless memory runs out:
    // no word is blamed, no file is said to be unread, too long or unwritten, nor the print.
    ensures complete { (request : RequestTerm) →
        request_of (map string_bytes words.now) ≡ Ok request →
        IsUndisturbed request
        (F.seen files.old) (F.seen files.new) (S.seen out.old) (S.seen out.new) →
        IsConcluded (F.seen files.old) request result }
{
    execute(alloc, words, files, out)
}
