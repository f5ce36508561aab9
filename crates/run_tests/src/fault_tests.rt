//! Faults outside are told.

use crate::case::{Case, Left, first_unmet};
use crate::texts::{FIVE, FIVE_AT_12, FIVE_OVER_11};

const LEAST: &str = "least --input i --output o --log l";

/// More calls and puts go through than a line makes.
const FAULT: Case = Case {
    line: "",
    files: &[("i", FIVE), ("log", FIVE_OVER_11), ("right", FIVE_AT_12)],
    calls: 9,
    puts: 9,
    code: 5,
    printed: "",
    output: Left::Nothing,
    log: Left::Nothing,
};

static FAULTS: [Case; 10] = [
    Case {
        line: LEAST,
        calls: 0,
        printed: "unread --input\n",
        ..FAULT
    },
    Case {
        line: LEAST,
        calls: 1,
        printed: "unwritten --output\n",
        ..FAULT
    },
    Case {
        line: LEAST,
        calls: 2,
        printed: "unwritten --log\n",
        output: Left::Text(FIVE_AT_12),
        ..FAULT
    },
    Case {
        line: LEAST,
        puts: 0,
        output: Left::Text(FIVE_AT_12),
        log: Left::Text(FIVE_OVER_11),
        ..FAULT
    },
    Case {
        line: LEAST,
        calls: 0,
        puts: 0,
        ..FAULT
    },
    Case {
        line: "refute --input i --log log",
        calls: 1,
        printed: "unread --log\n",
        ..FAULT
    },
    Case {
        line: "trim --input i --log log --output o",
        calls: 2,
        printed: "unwritten --output\n",
        ..FAULT
    },
    Case {
        line: "draw --input i --layout right --output o",
        calls: 2,
        printed: "unwritten --output\n",
        ..FAULT
    },
    Case {
        line: "verify --capacity 12 --input i --layout right",
        calls: 1,
        printed: "unread --layout\n",
        ..FAULT
    },
    Case {
        line: "report --input i --layout right",
        calls: 1,
        printed: "unread --layout\n",
        ..FAULT
    },
];

#[test]
fn faults_outside_are_told(rt: HostRuntime) {
    assert_eq!(rt; first_unmet(rt.alloc(), &FAULTS), None);
}
