//! Reports of worked layouts and of facts, byte for byte.

use crate::made::is_text;
use csv_instance::{Table, read_instance};
use dsa_model::judge;
use layout_report::{Facts, bounds_report, report};
use std::alloc::Global;

/// The report of the offsets, where they are a layout of the table's instance.
fn report_of(alloc: Global, table: &Table, offsets: &[u64]) -> Option<Vec<u8>> {
    match judge(table.instance(), 1 << 60, offsets) {
        Ok(()) => report(alloc, table, offsets).ok(),
        Err(_) => None,
    }
}

/// Whether this is the report of the offsets of the instance file.
fn is_reported(alloc: Global, text: &[u8], offsets: &[u64], want: &str) -> bool {
    if text.len() > 67108864 {
        return false;
    }
    match read_instance(alloc, text) {
        Ok(table) => is_text(report_of(alloc, &table, offsets), want.as_bytes()),
        Err(_) => false,
    }
}

/// Instance files, each with offsets and the report of them.
static REPORTS: [(&[u8], &[u64], &str); 3] = [
    (
        b"id,lower,upper,size,alignment\nA,0,1,1,2\nB,0,1,1,2\nC,0,1,2,1\n",
        &[2, 4, 0],
        "moment 0 load 4 height 5\nplace,size,id\n0,2,C\n2,1,A\n3,1,\n4,1,B\n",
    ),
    (
        b"id,lower,upper,size\n",
        &[],
        "moment none load 0 height 0\nplace,size,id\n",
    ),
    (
        b"id,lower,upper,size\n\"A,1\",1,3,3\nB,2,4,2\nC,5,6,1\n",
        &[1, 6, 9],
        "moment 2 load 5 height 10\nplace,size,id\n0,1,\n1,3,\"A,1\"\n4,2,\n6,2,B\n8,2,\n",
    ),
];

#[test]
fn a_report_shows_the_peak_with_its_free_ranges(rt: HostRuntime) {
    for &(text, offsets, want) in &REPORTS {
        assert!(rt; is_reported(rt.alloc(), text, offsets, want), "{want}");
    }
}

/// Facts, each with their report.
static FACTS: [(Facts, &str); 2] = [
    (
        Facts {
            buffers: 4,
            peak: Some((2, 4)),
            parts: 2,
            bound: 4,
            modulus: 1,
            best: 5,
        },
        "buffers 4\npeak 2 4\nparts 2\nbound 4 1\nbest 5\n",
    ),
    (
        Facts {
            buffers: 0,
            peak: None,
            parts: 0,
            bound: 0,
            modulus: 1,
            best: 0,
        },
        "buffers 0\npeak none\nparts 0\nbound 0 1\nbest 0\n",
    ),
];

#[test]
fn a_report_has_a_line_for_each_fact(rt: HostRuntime) {
    for (facts, want) in &FACTS {
        let report = bounds_report(rt.alloc(), facts).ok();
        assert!(rt; is_text(report, want.as_bytes()), "{want}");
    }
}
