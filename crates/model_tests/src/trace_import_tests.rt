//! Traces, read, refused and written as instances.

use crate::made::{is_text, is_told};
use dsa_model::{BUFFER_LIMIT, Fail};
use std::alloc::{AllocError, Global};
use trace_import::{Trace, import, read_trace};

/// Whether the trace has so many lines and buffers, and is written so as an instance.
fn is_imported(alloc: Global, trace: &Trace, lines: u32, buffers: u32, want: &[u8]) -> bool {
    trace.lines() == lines && trace.buffers() == buffers && is_text(import(alloc, trace).ok(), want)
}

/// The same of a text.
fn is_instance(alloc: Global, bytes: &[u8], lines: u32, buffers: u32, want: &[u8]) -> bool {
    if bytes.len() > 67108864 {
        return false;
    }
    match read_trace(alloc, bytes) {
        Ok(trace) => is_imported(alloc, &trace, lines, buffers, want),
        Err(_) => false,
    }
}

/// The text of a trace's fault, or nothing where it has none.
fn fault_of(alloc: Global, bytes: &[u8]) -> Option<String> {
    if bytes.len() > 67108864 {
        return None;
    }
    let mut told = String::new(alloc);
    match read_trace(alloc, bytes).err() {
        None => {}
        Some(Fail::Fault(fault)) => fault.append_to(&mut told).ok()?,
        Some(Fail::NoMemory) => return None,
    }
    Some(told)
}

/// A trace that allocates `count` identifiers, with these lines behind.
fn allocations(alloc: Global, count: u32, end: &str) -> Result<String, AllocError> {
    let mut text = String::new(alloc);
    for id in 0..count {
        let line = format!(in alloc; "alloc {id} 8 1\n")?;
        text.push_str(line.as_str())?;
    }
    text.push_str(end)?;
    Ok(text)
}

/// Traces, each with its lines, its buffers and its instance's text.
static TRACES: [(&[u8], u32, u32, &[u8]); 4] = [
    (
        b"alloc a 4 1\nalloc b 8 4\nfree a\nalloc a 2 1\n",
        4,
        3,
        b"id,lower,upper,size,alignment,name\na0,0,2,4,1,a\na1,1,4,8,4,b\na3,3,4,2,1,a\n",
    ),
    (b"", 0, 0, b"id,lower,upper,size,alignment,name\n"),
    (
        b"alloc \"x,y\" 007 01\nfree \"x,y\"\n",
        2,
        1,
        b"id,lower,upper,size,alignment,name\na0,0,1,7,1,\"\"\"x,y\"\"\"\n",
    ),
    (
        b"alloc a 1099511627776 4294967296\n",
        1,
        1,
        b"id,lower,upper,size,alignment,name\na0,0,1,1099511627776,4294967296,a\n",
    ),
];

#[test]
fn a_trace_is_written_as_its_instance(rt: HostRuntime) {
    for &(bytes, lines, buffers, want) in &TRACES {
        let met = is_instance(rt.alloc(), bytes, lines, buffers, want);
        assert!(rt; met, "of {lines} lines");
    }
}

/// Traces, each with the text of its first fault. The last ones have every fault in turn.
static REFUSED: [(&[u8], &str); 18] = [
    (b"free b\n", "not live 0"),
    (b"alloc a 4 1\nfree a\nfree a\n", "not live 2"),
    (b"alloc a 4 1\nalloc b 8 4\nalloc a 2 1\n", "still live 2 0"),
    (
        b"alloc a 4 1\nfree a\nalloc a 2 1\nalloc a 3 1\n",
        "still live 3 2",
    ),
    (b"alloc a 4 1\nfree a", "bad line 1"),
    (b"\n", "bad line 0"),
    (b"free  a\n", "bad line 0"),
    (b"alloc a 000000000000000000001 1\n", "bad line 0"),
    (b"alloc a 99999999999999999999 1\n", "bad size 0"),
    (b"alloc a 0 1\n", "bad size 0"),
    (b"alloc a 1099511627777 1\n", "bad size 0"),
    (b"alloc a 1 4294967297\n", "bad alignment 0"),
    (
        b"alloc a 1 1\nfree\nalloc b 0 0\nalloc b 1 0\nalloc a 0 1\nalloc a 1 1\nfree b\n",
        "bad line 1",
    ),
    (
        b"alloc a 1 1\nalloc a 0 0\nalloc a 1 0\nalloc a 1 1\nfree b\nfree\n",
        "bad size 1",
    ),
    (
        b"alloc a 1 1\nalloc a 1 0\nalloc a 1 1\nfree b\nfree\nalloc a 0 0\n",
        "bad alignment 1",
    ),
    (
        b"alloc a 1 1\nalloc a 1 1\nfree b\nfree\nalloc a 0 0\nalloc a 1 0\n",
        "still live 1 0",
    ),
    (
        b"alloc a 1 1\nfree b\nfree\nalloc a 0 0\nalloc a 1 0\nalloc a 1 1\n",
        "not live 1",
    ),
    (b"alloc a 1 1\nfree a\nalloc a 2 1\nfree a\n", ""),
];

#[test]
fn a_trace_is_refused_by_its_first_fault(rt: HostRuntime) {
    for &(bytes, want) in &REFUSED {
        assert!(rt; is_told(fault_of(rt.alloc(), bytes), want), "{want}");
    }
}

/// The text of the fault of a trace with one buffer more than an instance has.
fn fault_of_one_more(alloc: Global) -> Option<String> {
    match allocations(alloc, BUFFER_LIMIT, "free 0\nalloc 0 8 1\n") {
        Ok(text) => fault_of(alloc, text.as_bytes()),
        Err(_) => None,
    }
}

/// Whether the trace has as many lines and buffers as an instance may have, and is imported.
fn is_whole(alloc: Global, bytes: &[u8]) -> bool {
    if bytes.len() > 67108864 {
        return false;
    }
    match read_trace(alloc, bytes) {
        Ok(trace) => {
            trace.lines() == BUFFER_LIMIT
                && trace.buffers() == BUFFER_LIMIT
                && import(alloc, &trace).is_ok()
        }
        Err(_) => false,
    }
}

/// The same of a trace that allocates so many.
fn is_imported_at_the_limit(alloc: Global) -> bool {
    match allocations(alloc, BUFFER_LIMIT, "") {
        Ok(text) => is_whole(alloc, text.as_bytes()),
        Err(_) => false,
    }
}

#[test]
fn there_are_no_more_buffers_than_an_instance_has(rt: HostRuntime) {
    assert!(rt; is_imported_at_the_limit(rt.alloc()));
    assert!(rt; is_told(fault_of_one_more(rt.alloc()), "too many buffers 4097"));
}
