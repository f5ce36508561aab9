//! A worked table of pushes and pops.

ghost use Rattle.lifetime.specs.SectionList.{AreSectionsOf};

use crate::instances::{THREE, instance_of};
use crate::numbers::numbers_below;
use canonical_order::Lows;
use dsa_model::{Instance, NoMemory};
use lifetime::Sections;
use skyline::Skyline;
use std::alloc::{AllocError, Global};

/// What stands for no answer.
const NONE: u64 = u64::MAX;

/// The skyline of all buffers of the instance.
fn whole<'a>(
    alloc: Global,
    instance: &'a Instance,
    sections: &'a Sections,
) -> Result<Skyline<'a>, NoMemory>
    requires { AreSectionsOf instance.now sections.now }
{
    let members = numbers_below(alloc, instance.len())?;
    Skyline::new(alloc, instance, sections, &members)
}

/// The low of each buffer that is free, and the start and the height of the section that is too
/// full.
fn answers(alloc: Global, sky: &Skyline, capacity: u64) -> Result<Vec<u64>, AllocError> {
    let mut found = Vec::new(alloc);
    for b in 0..sky.instance().len() {
        found.push(if sky.is_free(b) { sky.low(b) } else { NONE })?;
    }
    let (start, height) = sky.overloaded(capacity).unwrap_or((NONE, NONE));
    found.push(start)?;
    found.push(height)?;
    Ok(found)
}

/// Pushes the buffer, where it is free.
fn push(sky: &mut Skyline, b: u32) -> Option<u64> {
    if sky.is_free(b) {
        Some(sky.push(b))
    } else {
        None
    }
}

/// Pops, where something stands.
fn pop(sky: &mut Skyline) -> Option<u64> {
    if sky.depth() > 0 {
        sky.pop();
    }
    None
}

/// A push of a buffer or a pop, what a push answers, and the answers after it.
struct Step {
    pushed: Option<u32>,
    answer: Option<u64>,
    answers: [u64; 5],
}

const WHOLE: [u64; 5] = [0, 0, 0, NONE, NONE];

static STEPS: [Step; 7] = [
    Step {
        pushed: Some(0),
        answer: Some(0),
        answers: [NONE, 2, 1, NONE, NONE],
    },
    Step {
        pushed: Some(1),
        answer: Some(2),
        answers: [NONE, NONE, 3, 0, 3],
    },
    Step {
        pushed: None,
        answer: None,
        answers: [NONE, 2, 1, NONE, NONE],
    },
    Step {
        pushed: Some(2),
        answer: Some(1),
        answers: [NONE, 4, NONE, 0, 4],
    },
    Step {
        pushed: None,
        answer: None,
        answers: [NONE, 2, 1, NONE, NONE],
    },
    Step {
        pushed: None,
        answer: None,
        answers: WHOLE,
    },
    Step {
        pushed: Some(2),
        answer: Some(0),
        answers: [2, 2, NONE, NONE, NONE],
    },
];

/// Takes the step, and tells whether it is answered as it says.
fn is_taken(alloc: Global, sky: &mut Skyline, step: &Step) -> Result<bool, AllocError> {
    let answer = match step.pushed {
        Some(b) => push(sky, b),
        None => pop(sky),
    };
    let found = answers(alloc, sky, 4)?;
    Ok(answer == step.answer && found.as_slice() == step.answers.as_slice())
}

/// Whether the skyline of no steps has the answers of the whole claim, and each step is answered as
/// it says.
fn are_taken(alloc: Global, sky: &mut Skyline) -> Result<bool, AllocError> {
    if answers(alloc, sky, 4)?.as_slice() != WHOLE.as_slice() {
        return Ok(false);
    }
    for step in &STEPS {
        if !is_taken(alloc, sky, step)? {
            return Ok(false);
        }
    }
    Ok(true)
}

/// Whether it is so from the whole claim on.
fn are_taken_of(alloc: Global, instance: &Instance, sections: &Sections) -> Result<bool, NoMemory>
    requires { AreSectionsOf instance.now sections.now }
{
    let mut sky = whole(alloc, instance, sections)?;
    Ok(are_taken(alloc, &mut sky)?)
}

/// The same by the instance's sections.
fn answers_by_last_claim(alloc: Global, instance: &Instance) -> bool {
    match Sections::build(alloc, instance) {
        Ok(sections) => are_taken_of(alloc, instance, &sections) == Ok(true),
        Err(_) => false,
    }
}

#[test]
fn pushes_and_pops_answer_by_the_last_claim(rt: HostRuntime) {
    let three = instance_of(rt.alloc(), THREE).expect(&rt, "memory");
    assert!(rt; answers_by_last_claim(rt.alloc(), &three));
}
