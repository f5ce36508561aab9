//! Command lines, read or refused, and how an option is written.

use command_words::{OptionName, Role, UsageFault, Verb, read_words};
use std::alloc::{AllocError, Global};

/// The words, each with memory of its own.
fn owned(alloc: Global, words: &[&str]) -> Result<Vec<String>, AllocError> {
    let mut all = Vec::new(alloc);
    for word in words {
        let word = String::from_str(alloc, word)?;
        all.push(word)?;
    }
    Ok(all)
}

/// Whether the words have this fault.
fn has_fault(alloc: Global, words: &[&str], want: UsageFault) -> bool {
    match owned(alloc, words) {
        Ok(words) => read_words(words.as_slice()).err() == Some(want),
        Err(_) => false,
    }
}

/// Command lines, each with its first fault.
static WRONG_LINES: [(&[&str], UsageFault); 15] = [
    (&[], UsageFault::NoCommand),
    (&["plan"], UsageFault::UnknownCommand),
    (&["Bounds", "--input", "i"], UsageFault::UnknownCommand),
    (
        &["bounds", "--log", "l"],
        UsageFault::UnknownOption { word: 1 },
    ),
    (&["bounds", "--input"], UsageFault::MissingValue { word: 1 }),
    (
        &["bounds", "--input", "i", "--input", "i"],
        UsageFault::RepeatedOption { word: 3 },
    ),
    (
        &["solve", "--capacity", "1152921504606846977", "--input", "i"],
        UsageFault::BadValue { word: 1 },
    ),
    (
        &[
            "verify",
            "--input",
            "i",
            "--capacity",
            "000000000000000000001",
        ],
        UsageFault::BadValue { word: 3 },
    ),
    (&["bounds", "--input", ""], UsageFault::BadValue { word: 1 }),
    (
        &["refute", "--input", "i"],
        UsageFault::MissingOption {
            option: OptionName::Log,
        },
    ),
    (
        &["refute", "--log", "i", "--input", "i"],
        UsageFault::SameName,
    ),
    (
        &["least", "--steps", "1", "--steps", "1"],
        UsageFault::RepeatedOption { word: 3 },
    ),
    (
        &["trial", "--seed", "1", "--count", "2"],
        UsageFault::MissingOption {
            option: OptionName::Steps,
        },
    ),
    (
        &["trim", "--input", "i", "--log", "l", "--output", "l"],
        UsageFault::SameName,
    ),
    (
        &["report", "--input", "i", "--layout", "i"],
        UsageFault::SameName,
    ),
];

#[test]
fn each_wrong_line_has_its_first_fault(rt: HostRuntime) {
    for &(line, want) in &WRONG_LINES {
        assert!(rt; has_fault(rt.alloc(), line, want), "{want:?}");
    }
}

/// A line whose first value looks like an option.
static SOLVE_LINE: [&str; 9] = [
    "solve",
    "--log",
    "--input",
    "--output",
    "o",
    "--input",
    "i",
    "--capacity",
    "012",
];

/// Whether the words ask to solve at 12 with a log that is named as an option.
fn is_read(words: &[String]) -> bool {
    match read_words(words) {
        Ok(request) => {
            request.verb() == Verb::Solve
                && request.number(OptionName::Capacity) == 12
                && request.name(Role::Log) == "--input"
        }
        Err(_) => false,
    }
}

#[test]
fn options_come_in_any_order_and_their_values_may_look_like_options(rt: HostRuntime) {
    let words = owned(rt.alloc(), &SOLVE_LINE).expect(&rt, "memory");
    assert!(rt; is_read(&words));
}

#[test]
fn an_option_is_written_with_two_dashes(rt: HostRuntime) {
    assert!(rt; OptionName::Log.word() == "--log");
}
