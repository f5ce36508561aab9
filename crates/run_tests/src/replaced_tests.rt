//! Files of the system that are replaced whole.

use crate::outside_tests::make_anew;
use dsa_outside::{DiskFiles, Files};
use std::fs::Permissions;
use std::os::unix::fs::{MetadataExt, PermissionsExt, symlink};
use std::test::Fail;
use std::{fs, io};

/// Whether the file holds these bytes.
fn holds(rt: &HostRuntime, path: &str, want: &[u8]) -> bool {
    match fs::read(rt, path) {
        Ok(bytes) => bytes.as_slice() == want,
        Err(_) => false,
    }
}

/// Whether the bytes are written.
fn is_written(rt: &HostRuntime, path: &str, bytes: &[u8]) -> bool {
    DiskFiles::new(rt, rt.alloc()).write(path, bytes).is_ok()
}

const OWNED: &str = "replaced_tests_owned";

const OWNED_FILE: &str = "replaced_tests_owned/a name\nof two lines";

/// Whether the file has changed places with another one of the same permissions, while it is open.
fn is_another(rt: &HostRuntime) -> io::Result<bool> {
    fs::set_permissions(rt, OWNED_FILE, Permissions::from_mode(0o640))?;
    let old = fs::metadata(rt, OWNED_FILE)?;
    let open = fs::open(rt, OWNED_FILE)?;
    let written = is_written(rt, OWNED_FILE, b"newer");
    let new = fs::metadata(rt, OWNED_FILE)?;
    let alike = new.mode() == old.mode() && new.ino() != old.ino();
    Ok(written && alike && open.metadata()?.len() == 3)
}

/// The same, from nothing, and whether it holds the new bytes.
fn is_replaced(rt: &HostRuntime) -> io::Result<bool> {
    make_anew(rt, OWNED)?;
    let begun = is_written(rt, OWNED_FILE, b"old");
    let replaced = is_another(rt)? && holds(rt, OWNED_FILE, b"newer");
    fs::remove_dir_all(rt, OWNED)?;
    Ok(begun && replaced)
}

#[test]
fn a_written_file_is_another_file_with_the_old_permissions(rt: HostRuntime) -> Result<(), Fail> {
    assert!(rt; is_replaced(&rt)?);
    Ok(())
}

const FOLDER: &str = "replaced_tests";

const FILE: &str = "replaced_tests/o";

/// How many names stand in the folder.
fn count(rt: &HostRuntime) -> io::Result<usize> {
    Ok(fs::read_dir(rt, FOLDER)?.count())
}

/// Whether a file goes that an ended run has left, and one stays that another run has locked.
fn stay_where_locked(rt: &HostRuntime) -> io::Result<bool> {
    drop(fs::create(rt, "replaced_tests/.o.part1")?);
    let other = fs::create(rt, "replaced_tests/.o.part")?;
    let locked = other.try_lock().is_ok();
    let written = is_written(rt, FILE, b"new");
    Ok(locked && written && count(rt)? == 2)
}

/// Whether links stay links, also where nothing is there yet to which one leads, and all that they
/// lead to is written.
fn are_followed(rt: &HostRuntime) -> io::Result<bool> {
    symlink(rt, "o", "replaced_tests/link")?;
    symlink(rt, "link", "replaced_tests/further")?;
    symlink(rt, "later", "replaced_tests/early")?;
    let written = is_written(rt, "replaced_tests/further", b"through")
        && is_written(rt, "replaced_tests/early", b"made");
    let held = holds(rt, FILE, b"through") && holds(rt, "replaced_tests/later", b"made");
    let is_link = fs::symlink_metadata(rt, "replaced_tests/early")?.is_symlink();
    Ok(written && held && is_link && count(rt)? == 5)
}

/// Whether a link that leads to itself and a full device fail, and a device that is not full takes
/// what is written.
fn fail_where_nothing_is_written(rt: &HostRuntime) -> io::Result<bool> {
    symlink(rt, "round", "replaced_tests/round")?;
    Ok(
        !is_written(rt, "replaced_tests/round", b"x")
            && is_written(rt, "/dev/null", b"x")
            && !is_written(rt, "/dev/full", b"x"),
    )
}

#[test]
fn what_stands_beside_a_name(rt: HostRuntime) -> Result<(), Fail> {
    make_anew(&rt, FOLDER)?;
    assert!(rt; stay_where_locked(&rt)?);
    assert!(rt; are_followed(&rt)?);
    assert!(rt; fail_where_nothing_is_written(&rt)?);
    fs::remove_dir_all(&rt, FOLDER)?;
    Ok(())
}
