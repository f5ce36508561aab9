//! Instance files and layout files, read, refused and written.

use crate::made::{is_text, is_told};
use csv_instance::{
    Rows, Table, read_instance, read_offsets, read_rows, write_changed, write_layout, write_rows,
};
use dsa_model::Fail;
use std::alloc::Global;

/// The layout file of the table and the offsets.
fn layout_of(alloc: Global, table: &Table, offsets: &[u64]) -> Option<Vec<u8>> {
    if table.instance().len() as usize != offsets.len() {
        return None;
    }
    write_layout(alloc, table, offsets).ok()
}

/// Whether this is the layout file of the instance file and the offsets.
fn is_laid_out(alloc: Global, text: &[u8], offsets: &[u64], want: &[u8]) -> bool {
    if text.len() > 67108864 {
        return false;
    }
    match read_instance(alloc, text) {
        Ok(table) => is_text(layout_of(alloc, &table, offsets), want),
        Err(_) => false,
    }
}

/// An instance file of three buffers.
static EXAMPLE: &[u8] = b"id,lower,upper,size\nb1,0,3,4\nb2,3,9,4\nb3,0,9,4\n";

/// Its layout file.
static EXAMPLE_LAID: &[u8] = b"id,lower,upper,size,offset\nb1,0,3,4,0\nb2,3,9,4,0\nb3,0,9,4,4\n";

/// An instance file with another column.
static NOTED: &[u8] = b"size,note,id,upper,lower\n4,\"x,y\",b1,3,0\n";

/// Its layout file.
static NOTED_LAID: &[u8] = b"size,note,id,upper,lower,offset\n4,\"x,y\",b1,3,0,0\n";

#[test]
fn a_layout_is_written_beside_the_columns_of_its_instance(rt: HostRuntime) {
    assert!(rt; is_laid_out(rt.alloc(), EXAMPLE, &[0, 0, 4], EXAMPLE_LAID));
    assert!(rt; is_laid_out(rt.alloc(), NOTED, &[0], NOTED_LAID));
}

/// The first and the last row of a table of three.
fn outer_rows(alloc: Global, table: &Table) -> Option<Vec<u8>> {
    if table.instance().len() != 3 {
        return None;
    }
    write_rows(alloc, table, &[0, 2]).ok()
}

/// An instance file of three rows, with a note in two of them.
static THREE_ROWS: &[u8] = b"id,lower,note,upper,size\nb1,0,\"x,y\",3,04\nb2,3,,9,4\nb3,0,z,9,4\n";

/// Its first and its last row.
static OUTER_ROWS: &[u8] = b"id,lower,note,upper,size\nb1,0,\"x,y\",3,04\nb3,0,z,9,4\n";

/// Whether the outer rows of the file of three are those.
fn are_outer(alloc: Global) -> bool {
    match read_instance(alloc, THREE_ROWS) {
        Ok(table) => is_text(outer_rows(alloc, &table), OUTER_ROWS),
        Err(_) => false,
    }
}

#[test]
fn some_rows_are_written_as_they_were_read(rt: HostRuntime) {
    assert!(rt; are_outer(rt.alloc()));
}

/// The rows, of which the first gets a lifetime from 0 to 10 with a gap from 2 to 8.
fn with_first_changed(alloc: Global, rows: &Rows) -> Option<Vec<u8>> {
    if rows.count() == 0 {
        return None;
    }
    write_changed(alloc, rows, &[(0, 0, 10, 2, 8)]).ok()
}

/// Two rows that are no instance.
static TWO_ROWS: &[u8] = b"id,lower,upper,size\nA,8,2,4\nB,3,3,0\n";

/// The same with the first changed.
static FIRST_CHANGED: &[u8] = b"id,lower,upper,size,gaps\nA,0,10,4,2-8\nB,3,3,0,\n";

/// Whether the two rows with the first changed are those.
fn are_changed(alloc: Global) -> bool {
    match read_rows(alloc, TWO_ROWS) {
        Ok(rows) => is_text(with_first_changed(alloc, &rows), FIRST_CHANGED),
        Err(_) => false,
    }
}

#[test]
fn rows_are_written_with_other_moments(rt: HostRuntime) {
    assert!(rt; are_changed(rt.alloc()));
}

/// The text of an instance file's fault, or nothing where it has none.
fn fault_of(alloc: Global, text: &[u8]) -> Option<String> {
    if text.len() > 67108864 {
        return None;
    }
    let mut told = String::new(alloc);
    match read_instance(alloc, text).err() {
        None => {}
        Some(Fail::Fault(fault)) => fault.append_to(&mut told).ok()?,
        Some(Fail::NoMemory) => return None,
    }
    Some(told)
}

/// Instance files, each with the text of its fault: of its header, of its first record that has
/// one, and of gaps.
static FAULTS: [(&[u8], &str); 22] = [
    (b"", "no header"),
    (
        b"\"\xEF\xBB\xBFnote\",id,lower,upper,size\n",
        "marked header",
    ),
    (b"\xEF\xBB\xBFid,lower,upper,size\n", ""),
    (b"size,id,lower,upper,size,id\n", "duplicate column id"),
    (b"id,lower,upper,size,offset\nb1,0,3,4,0\n", "offset column"),
    (b"id,lower,size\n", "missing column upper"),
    (b"id,lower,upper,size,note,note\n", ""),
    (
        b"id,lower,upper,size\nA,0,1,1099511627777",
        "row 0 too large",
    ),
    (
        b"id,lower,upper,size\nA,0,1,000000000000000000001",
        "row 0 bad number size",
    ),
    (b"id,lower,upper,size\nA,0,1,00000000000000000001", ""),
    (b"id,lower,upper,size\nA,0,1,0", "row 0 zero size"),
    (b"id,lower,upper,size\nA,1,1,4", "row 0 empty lifetime"),
    (
        b"id,lower,upper,size\nA,0,4611686018427387904,4",
        "row 0 bad number upper",
    ),
    (
        b"id,lower,upper,size,alignment\nA,0,1,4,0",
        "row 0 zero alignment",
    ),
    (b"id,lower,upper,size\n,0,1,4", "row 0 empty id"),
    (
        b"id,lower,upper,size,alignment\nA,0,1,4",
        "row 0 field count",
    ),
    (b"id,lower,upper,size,alignment\nA,0,1,4,", ""),
    (
        b"id,lower,upper,size,alignment\nA,0,1,4,1\nA,0,1,4,1",
        "row 1 duplicate id 0",
    ),
    (b"id,lower,upper,size,gaps\nA,0,10,4,4-6 1-2\n", ""),
    (
        b"id,lower,upper,size,gaps\nA,0,10,4,1-2  4-6\n",
        "row 0 bad gap",
    ),
    (
        b"id,lower,upper,size,gaps\nA,0,10,4,0-6 4-10\n",
        "row 0 never live",
    ),
    (
        b"id,lower,upper,size,gaps\nA,0,10,4,1-2 6-6\n",
        "row 0 gap 1 empty",
    ),
];

#[test]
fn the_first_fault_of_an_instance_file_is_named(rt: HostRuntime) {
    for &(text, want) in &FAULTS {
        assert!(rt; is_told(fault_of(rt.alloc(), text), want), "{want}");
    }
}

/// The text of a layout file's fault beside the table, or nothing where it has none.
fn offsets_fault(alloc: Global, table: &Table, text: &[u8]) -> Option<String> {
    if text.len() > 67108864 {
        return None;
    }
    let mut told = String::new(alloc);
    match read_offsets(alloc, table, text).err() {
        None => {}
        Some(Fail::Fault(fault)) => fault.append_to(&mut told).ok()?,
        Some(Fail::NoMemory) => return None,
    }
    Some(told)
}

/// Layout files for the example, each with the text of its fault.
static LAYOUTS: [(&[u8], &str); 9] = [
    (b"\n\n", "no header"),
    (b"offset,offset,id,id\n", "duplicate column id"),
    (b"id,size,size\n", "missing column offset"),
    (b"id,offset\nb3,0\nb1\n", "row 1 field count"),
    (b"id,offset\nb4,x\n", "row 0 unknown id"),
    (b"id,offset\nb3,1\nb2,0\nb3,x\n", "row 2 duplicate id 0"),
    (
        b"id,offset\nb3,1152921504606846977\n",
        "row 0 bad number offset",
    ),
    (b"offset,id\n1152921504606846976,b3\n0,b1\n", "missing id 1"),
    (b"offset,id\n1,b3\n0,b1\n5,b2\n", ""),
];

/// The place of the first layout file whose fault is another, or the count of them all.
fn told_beside(alloc: Global, table: &Table) -> usize {
    for (place, &(text, want)) in LAYOUTS.iter().enumerate() {
        if !is_told(offsets_fault(alloc, table, text), want) {
            return place;
        }
    }
    LAYOUTS.len()
}

/// The same beside the example, and 0 where it is not read.
fn told_of_example(alloc: Global) -> usize {
    match read_instance(alloc, EXAMPLE) {
        Ok(table) => told_beside(alloc, &table),
        Err(_) => 0,
    }
}

#[test]
fn a_layout_file_has_a_row_for_each_buffer(rt: HostRuntime) {
    assert_eq!(rt; told_of_example(rt.alloc()), 9);
}
