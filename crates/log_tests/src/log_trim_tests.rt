//! Texts of logs, trimmed.

use crate::made::{THREE, THREE_AT_4, TWO, TWO_AT_1, buffers};
use log_check::check;
use log_text::{read_log, write_log};
use log_trim::trim;
use std::alloc::Global;

/// The log of the three buffers behind a line that nothing cites.
const WITH_WASTE: &[u8] = b"dsalog 1 3 4\n\
over 0 5 1 : 0=5\n\
over 0 3 1 : 2=3\n\
over 0 4 1 : 1=4\n\
case : 1=1 2=1 : 1>1 2>2\n\
over 0 2 2 : 0=2 1=2\n\
case : 0=0 1=0 2=0 : 0>3 1~0 2>4\n\
end 5\n";

/// The text of the trimmed log of a text.
fn trimmed(alloc: Global, sizes: &[(u64, u64)], text: &[u8]) -> Option<Vec<u8>> {
    let instance = buffers(alloc, sizes)?;
    let log = check(alloc, &instance, read_log(alloc, text).ok()?).ok()?;
    write_log(alloc, &trim(alloc, &instance, &log).ok()?).ok()
}

/// Texts of logs over buffers, each as it is trimmed.
static LOGS: [(&[(u64, u64)], &[u8], &[u8]); 3] = [
    (THREE, WITH_WASTE, THREE_AT_4),
    (THREE, THREE_AT_4, THREE_AT_4),
    (TWO, TWO_AT_1, TWO_AT_1),
];

#[test]
fn a_line_that_nothing_cites_goes_and_others_stay(rt: HostRuntime) {
    for &(sizes, text, want) in &LOGS {
        let found = trimmed(rt.alloc(), sizes, text).expect(&rt, "memory");
        assert_eq!(rt; found.as_slice(), want);
    }
}
