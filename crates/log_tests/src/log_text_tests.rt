//! Texts, and their first faults as a reader by hand finds them.

use crate::made::{THREE, THREE_AT_4, buffers};
use dsa_model::Fail;
use log_check::check;
use log_text::{TextFault, read_log, write_log, write_log2};
use std::alloc::Global;

/// That the first line behind the header has no line's form.
const NO_LINE: TextFault = TextFault::BadLine { line: 0 };

/// That a number of that line is above its limit.
const TOO_LARGE: TextFault = TextFault::NumberTooLarge { line: 0 };

/// Texts with a header, each with its first fault.
static ROW_FAULTS: [(&[u8], TextFault); 20] = [
    (b"dsalog 1 3 4\nend 0", NO_LINE),
    (b"dsalog 1 3 4\nend 0\n\n", TextFault::AfterEnd),
    (b"dsalog 1 3 4\nend 00\n", NO_LINE),
    (b"dsalog 1 3 4\nend 1152921504606846977\n\n", TOO_LARGE),
    (b"dsalog 1 3 4\nover 0 3 1 : \nend 0\n", NO_LINE),
    (b"dsalog 1 3 4\nover 0 3 1 : 2=3 \nend 0\n", NO_LINE),
    (b"dsalog 1 3 4\nover 0 3 1 : 2=3  3=4\nend 0\n", NO_LINE),
    (b"dsalog 1 3 4\nover 0 3 1 : 2=03\nend 0\n", NO_LINE),
    (b"dsalog 1 3 4\nover 0 3 1 : 2>3\nend 0\n", NO_LINE),
    (b"dsalog 1 3 4\nover 0 3 : 2=3\nend 0\n", NO_LINE),
    (b"dsalog 1 3 4\ncase : 1=0 : 1=0\nend 0\n", NO_LINE),
    (b"dsalog 1 3 4\ncase : 1=0 : \nend 0\n", NO_LINE),
    (b"dsalog 1 3 4\ncase : 1=0\nend 0\n", NO_LINE),
    (
        b"dsalog 1 3 4\nover 0 3 1 : 2=3 2=4\nend 0\n",
        TextFault::NotRising { line: 0 },
    ),
    (
        b"dsalog 1 3 4\ncase : 1=0 2=0 : 2>0 1>0\nend 0\n",
        TextFault::NotRising { line: 0 },
    ),
    (
        b"dsalog 1 3 4\nover 4611686018427387903 1152921504606846976 0 : 1=0\n",
        TextFault::NoEnd,
    ),
    (
        b"dsalog 1 3 4\nover 4611686018427387904 0 1 : 1=1\n",
        TOO_LARGE,
    ),
    (
        b"dsalog 1 3 4\nover 0 0 1 : 1=1\nover 0 0 1 : 2=1 1=1152921504606846977\n",
        TextFault::NumberTooLarge { line: 1 },
    ),
    (
        b"dsalog 1 3 4\ncase : 1=0 : 1~9999999999999999999999999999999999999999999999\n",
        TOO_LARGE,
    ),
    (
        b"dsalog 1 3 4\ncase : 1=0 : 1~2\nover 0 0 1 : 1=1 1=2\nx",
        TextFault::NotRising { line: 1 },
    ),
];

/// Texts of version 2, each with its first fault.
static SECOND_FAULTS: [(&[u8], TextFault); 14] = [
    (
        b"dsalog 2 5 11\nover 0 0 1 : @0\nend 0\n",
        TextFault::BadBase { line: 0 },
    ),
    (
        b"dsalog 2 5 11\nover 0 0 1 : 0=0 2=0\nover 0 0 1 : @1\nend 1\n",
        TextFault::BadBase { line: 1 },
    ),
    (
        b"dsalog 2 5 11\nover 0 0 1 : 0=0 2=0\ncase : @1 : 2>0 0>0\nend 1\n",
        TextFault::NotRising { line: 1 },
    ),
    (
        b"dsalog 2 5 11\nover 0 0 1 : 0=0 2=0\nover 0 0 1 : @0 0=0\nend 1\n",
        TextFault::BadChange { line: 1 },
    ),
    (
        b"dsalog 2 5 11\nover 0 0 1 : 0=0 2=0\nover 0 0 1 : @0 -1\nend 1\n",
        TextFault::BadChange { line: 1 },
    ),
    (
        b"dsalog 2 5 11\nover 0 0 1 : 0=0 2=0\nover 0 0 1 : @0 -0 -2\nend 1\n",
        TextFault::BadChange { line: 1 },
    ),
    (
        b"dsalog 2 5 11\nover 0 0 1 : 0=0 2=0\nover 0 0 1 : @0 2=1 -0\nend 1\n",
        TextFault::NotRising { line: 1 },
    ),
    (
        b"dsalog 2 5 11\nover 0 0 1 : @1152921504606846977\nend 0\n",
        TOO_LARGE,
    ),
    (
        b"dsalog 2 5 11\nover 0 0 1 : @0 -1152921504606846977\nend 0\n",
        TOO_LARGE,
    ),
    (b"dsalog 2 5 11\nover 0 0 1 : @\nend 0\n", NO_LINE),
    (b"dsalog 2 5 11\nover 0 0 1 : @0 \nend 0\n", NO_LINE),
    (b"dsalog 2 5 11\nover 0 0 1 : @0 -01\nend 0\n", NO_LINE),
    (b"dsalog 2 5 11\nover 0 0 1 : 0=0 -2\nend 0\n", NO_LINE),
    (
        b"dsalog 1 5 11\nover 0 0 1 : 0=0 2=0\nover 0 0 1 : @0\nend 1\n",
        TextFault::BadLine { line: 1 },
    ),
];

/// Texts without a whole header, or with nothing behind it, each with its first fault.
static HEADER_FAULTS: [(&[u8], TextFault); 12] = [
    (b"", TextFault::NotLog),
    (b"dsalog 1 3 4", TextFault::NotLog),
    (b"dsalog 1 3  4\n", TextFault::NotLog),
    (b"dsalog 1 03 4\n", TextFault::NotLog),
    (
        b"dsalog 1 3 1152921504606846977\nend 0\n",
        TextFault::NotLog,
    ),
    (b"dsalog 18446744073709551616 3 4\n", TextFault::NotLog),
    (b"dsalog 2 1152921504606846977 4\n", TextFault::NotLog),
    (b"dsalog 2 3 4\n", TextFault::NoEnd),
    (
        b"dsalog 18446744073709551615 3 4\n",
        TextFault::BadVersion { version: u64::MAX },
    ),
    (
        b"dsalog 3 3 4\nend 0\n",
        TextFault::BadVersion { version: 3 },
    ),
    (b"dsalog 0 3 4\n", TextFault::BadVersion { version: 0 }),
    (b"dsalog 1 1152921504606846976 0\n", TextFault::NoEnd),
];

/// The fault of the text, where it has one.
fn fault(alloc: Global, text: &[u8]) -> Option<Fail<TextFault>> {
    read_log(alloc, text).err()
}

/// The first of the texts that has not the fault that is said of it.
fn first_other(alloc: Global, faults: &[(&'static [u8], TextFault)]) -> Option<&'static [u8]> {
    for &(text, want) in faults {
        if fault(alloc, text) != Some(Fail::Fault(want)) {
            return Some(text);
        }
    }
    None
}

#[test]
fn the_first_fault_is_answered(rt: HostRuntime) {
    assert_eq!(rt; first_other(rt.alloc(), &HEADER_FAULTS), None);
    assert_eq!(rt; first_other(rt.alloc(), &ROW_FAULTS), None);
    assert_eq!(rt; first_other(rt.alloc(), &SECOND_FAULTS), None);
}

/// The log of the three buffers in version 2.
const SECOND: &[u8] = b"dsalog 2 3 4\n\
over 0 3 1 : 2=3\n\
over 0 4 1 : 1=4\n\
case : 1=1 2=1 : 1>0 2>1\n\
over 0 2 2 : 0=2 1=2\n\
case : 0=0 1=0 2=0 : 0>2 1~0 2>3\n\
end 4\n";

/// The same log, with one claim as a difference, which takes more bytes than the claim.
const WITH_DIFFERENCE: &[u8] = b"dsalog 2 3 4\n\
over 0 3 1 : 2=3\n\
over 0 4 1 : 1=4\n\
case : 1=1 2=1 : 1>0 2>1\n\
over 0 2 2 : @2 0=2 1=2 -2\n\
case : 0=0 1=0 2=0 : 0>2 1~0 2>3\n\
end 4\n";

/// A log of the three buffers at 3 that says a line twice.
const TWICE: &[u8] = b"dsalog 1 3 3\n\
over 0 0 1 : 0=0 1=0 2=0\n\
over 0 0 1 : 0=0 1=0 2=0\n\
end 1\n";

/// The same in version 2.
const SECOND_TWICE: &[u8] = b"dsalog 2 3 3\n\
over 0 0 1 : 0=0 1=0 2=0\n\
over 0 0 1 : @0\n\
end 1\n";

/// Texts of logs of the three buffers, each as it is written in both versions.
static WRITTEN: [(&[u8], &[u8], &[u8]); 4] = [
    (THREE_AT_4, THREE_AT_4, SECOND),
    (WITH_DIFFERENCE, THREE_AT_4, SECOND),
    (TWICE, TWICE, SECOND_TWICE),
    (SECOND_TWICE, TWICE, SECOND_TWICE),
];

/// Whether the log of the text is written so in both versions.
fn is_written(alloc: Global, text: &[u8], first: &[u8], second: &[u8]) -> Option<bool> {
    let three = buffers(alloc, THREE)?;
    let log = check(alloc, &three, read_log(alloc, text).ok()?).ok()?;
    let is_first = write_log(alloc, &log).ok()?.as_slice() == first;
    Some(is_first && write_log2(alloc, &log).ok()?.as_slice() == second)
}

#[test]
fn a_log_that_is_read_is_written_byte_for_byte(rt: HostRuntime) {
    for &(text, first, second) in &WRITTEN {
        assert_eq!(rt; is_written(rt.alloc(), text, first, second), Some(true));
    }
}

static SAMPLE: &[u8] = THREE_AT_4;

#[test]
fn no_proper_prefix_of_the_sample_log_is_a_log(rt: HostRuntime) {
    let alloc = rt.alloc();
    let mut lines: u64 = 0;
    for cut in 0..SAMPLE.len() {
        let at_line = cut > 0 && SAMPLE[cut - 1] == b'\n';
        if at_line {
            lines = lines.saturating_add(1);
        }
        let want = match lines.checked_sub(1) {
            None => TextFault::NotLog,
            Some(_) if at_line => TextFault::NoEnd,
            Some(line) => TextFault::BadLine { line },
        };
        assert_eq!(rt; fault(alloc, &SAMPLE[..cut]), Some(Fail::Fault(want)));
    }
}
