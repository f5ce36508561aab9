//! Texts of logs, read and checked.

use crate::made::{THREE, THREE_AT_4, TWO, TWO_AT_1, buffers};
use dsa_model::Fail;
use log_check::{CheckFault, check};
use log_text::read_log;
use refute_log::Reason;
use std::alloc::Global;

/// How many lines the log of the text has, or its first fault.
fn checked(alloc: Global, sizes: &[(u64, u64)], text: &[u8]) -> Option<Result<u64, CheckFault>> {
    let instance = buffers(alloc, sizes)?;
    match check(alloc, &instance, read_log(alloc, text).ok()?) {
        Ok(log) => Some(Ok(log.len())),
        Err(Fail::Fault(fault)) => Some(Err(fault)),
        Err(Fail::NoMemory) => None,
    }
}

/// Texts of logs over buffers, each with the number of its lines or its first fault.
static LOGS: [(&[(u64, u64)], &[u8], Result<u64, CheckFault>); 12] = [
    (THREE, THREE_AT_4, Ok(5)),
    (TWO, TWO_AT_1, Ok(3)),
    (
        THREE,
        b"dsalog 1 4 4\nend 0\n",
        Err(CheckFault::WrongCount { said: 4, actual: 3 }),
    ),
    (
        THREE,
        b"dsalog 1 3 4\nover 0 2 1 : 2=3\nend 0\n",
        Err(CheckFault::Illegal {
            line: 0,
            reason: Reason::NotOver,
        }),
    ),
    (
        THREE,
        b"dsalog 1 3 4\nover 0 3 1 : 2=3\nover 0 4 1 : 1=4\ncase : 1=1 2=1 : 1>0\nend 2\n",
        Err(CheckFault::Illegal {
            line: 2,
            reason: Reason::CitesDiffer,
        }),
    ),
    (
        THREE,
        b"dsalog 1 3 4\nover 0 3 1 : 2=3\nover 0 4 1 : 1=4\ncase : 1=1 2=1 : 1>2 2>1\nend 2\n",
        Err(CheckFault::Illegal {
            line: 2,
            reason: Reason::NotEarlier { buffer: 1 },
        }),
    ),
    (
        THREE,
        b"dsalog 1 3 4\nover 0 3 1 : 2=3\nend 1\n",
        Err(CheckFault::EndRange { end: 1 }),
    ),
    (
        THREE,
        b"dsalog 1 3 4\nover 0 3 1 : 2=3\nend 0\n",
        Err(CheckFault::EndNotWhole { end: 0, buffer: 2 }),
    ),
    (
        THREE,
        b"dsalog 1 3 4\nover 0 3 1 : 2=3 4294967296=0 4294967297=0\nend 0\n",
        Err(CheckFault::Illegal {
            line: 0,
            reason: Reason::BufferRange { buffer: 4294967296 },
        }),
    ),
    (
        THREE,
        b"dsalog 1 3 4\ncase : 1=3 2=2 : 1>0 2<1099511627776\nend 0\n",
        Err(CheckFault::Illegal {
            line: 0,
            reason: Reason::NotEarlier { buffer: 1 },
        }),
    ),
    (
        THREE,
        b"dsalog 1 3 4\ncase : 1=3 2=2 : 1<2 2<1099511627776\nend 0\n",
        Err(CheckFault::Illegal {
            line: 0,
            reason: Reason::NotBelow { buffer: 2 },
        }),
    ),
    (
        THREE,
        b"dsalog 1 3 4\ncase : 1=3 2=2 : 1<2 2~4294967296\nend 0\n",
        Err(CheckFault::Illegal {
            line: 0,
            reason: Reason::NotTwin { buffer: 2 },
        }),
    ),
];

#[test]
fn a_log_is_accepted_or_its_first_fault_is_answered(rt: HostRuntime) {
    for &(sizes, text, want) in &LOGS {
        assert_eq!(rt; checked(rt.alloc(), sizes, text), Some(want));
    }
}
