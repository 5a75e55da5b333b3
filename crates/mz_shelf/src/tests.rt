//! The shelves as a caller meets them, with memory enough.
use crate::{DirShelf, MemShelf, SafeShelf, Shelf, ShelfErr};
use mz_num::Text;
use std::fs;
use std::rt::Files;
use std::test::Fail;

/// Whether a file that was looked up has these bytes.
fn is_file(found: Option<&[u8]>, bytes: &[u8]) -> bool {
    match found {
        Some(found) => found == bytes,
        None => false,
    }
}

/// Whether a read gave these bytes.
fn gave(read: Result<Vec<u8>, ShelfErr>, bytes: &[u8]) -> bool {
    match read {
        Ok(read) => read.as_slice() == bytes,
        Err(_) => false,
    }
}

/// Whether these names were read, in this order.
fn were_read(reads: &[Text], names: &[&str]) -> bool {
    reads.iter().map(Text::as_str).eq(names.iter().copied())
}

/// What a caller that knows only the trait reads back.
fn written_and_read<S: Shelf, R: AllocGlobal>(
    rt: &R,
    shelf: &mut S,
    name: &str,
) -> Result<Vec<u8>, ShelfErr> {
    shelf.write_file(rt.alloc(), name, b"first and longer")?;
    shelf.write_file(rt.alloc(), name, b"second")?;
    shelf.say(rt.alloc(), b"written\n")?;
    shelf.read_file(rt.alloc(), name)
}

#[test]
fn a_safe_shelf_keeps_files_and_said_bytes(rt: HostRuntime) -> Result<(), Fail> {
    let alloc = rt.alloc();
    let mut shelf = SafeShelf::new(alloc)?;
    shelf.put(alloc, "b.csv", b"other")?;
    let read = written_and_read(&rt, &mut shelf, "a.csv");
    assert!(rt; gave(read, b"second"));
    assert!(rt; is_file(shelf.file("a.csv"), b"second"));
    assert!(rt; is_file(shelf.file("b.csv"), b"other"));
    assert!(rt; shelf.file("c.csv").is_none());
    assert!(rt; shelf.said() == b"written\n".as_slice());
    assert!(rt; were_read(shelf.reads(), &["a.csv"]));
    Ok(())
}

#[test]
fn a_failing_write_leaves_its_cut(rt: HostRuntime) -> Result<(), Fail> {
    let alloc = rt.alloc();
    let mut shelf = MemShelf::new(alloc, vec![in alloc; 0]?, 4)?;
    shelf.put(alloc, "a.csv", b"before")?;
    assert!(rt; shelf.write_file(alloc, "a.csv", b"after") == Err(ShelfErr::Failed));
    assert!(rt; is_file(shelf.file("a.csv"), b"afte"));
    assert_eq!(rt; shelf.faults(), 1);
    let read = written_and_read(&rt, &mut shelf, "a.csv");
    assert!(rt; gave(read, b"second"));
    assert_eq!(rt; shelf.faults(), 1);
    Ok(())
}

#[test]
fn a_failing_say_leaves_its_cut(rt: HostRuntime) -> Result<(), Fail> {
    let alloc = rt.alloc();
    let mut shelf = MemShelf::new(alloc, vec![in alloc; 1, 2]?, 4)?;
    assert!(rt; shelf.say(alloc, b"begun\n").is_ok());
    assert!(rt; shelf.say(alloc, b"done\n") == Err(ShelfErr::Failed));
    assert!(rt; shelf.say(alloc, b"all") == Err(ShelfErr::Failed));
    assert!(rt; shelf.said() == b"begun\ndoneall".as_slice());
    assert_eq!(rt; shelf.faults(), 2);
    Ok(())
}

#[test]
fn a_failing_read_reads_nothing(rt: HostRuntime) -> Result<(), Fail> {
    let alloc = rt.alloc();
    let mut shelf = MemShelf::new(alloc, vec![in alloc; 1]?, 4)?;
    shelf.put(alloc, "a.csv", b"bytes")?;
    assert!(rt; shelf.read_file(alloc, "b.csv").err() == Some(ShelfErr::Absent));
    assert!(rt; shelf.read_file(alloc, "a.csv").err() == Some(ShelfErr::Failed));
    assert!(rt; gave(shelf.read_file(alloc, "a.csv"), b"bytes"));
    assert_eq!(rt; shelf.faults(), 1);
    assert!(rt; were_read(shelf.reads(), &["b.csv", "a.csv", "a.csv"]));
    Ok(())
}

/// What reading a real file gives where it can't be read.
fn refused<R: Files + Print + AllocGlobal>(
    rt: &R,
    folder: &str,
    name: &str,
) -> Result<Option<ShelfErr>, ShelfErr> {
    let mut shelf = DirShelf::new(rt, String::from_str(rt.alloc(), folder)?);
    Ok(shelf.read_file(rt.alloc(), name).err())
}

/// Writes a file in a folder, and reads it from above.
fn seen_from_above<R: Files + Print + AllocGlobal>(rt: &R) -> Result<Vec<u8>, ShelfErr> {
    let mut below = DirShelf::new(rt, String::from_str(rt.alloc(), "below")?);
    written_and_read(rt, &mut below, "a.csv")?;
    let mut above = DirShelf::new(rt, String::new(rt.alloc()));
    above.read_file(rt.alloc(), "below/a.csv")
}

#[test]
fn real_files_are_written_and_read_back(rt: HostRuntime) -> Result<(), Fail> {
    fs::create_dir(&rt, "below")?;
    assert!(rt; gave(seen_from_above(&rt), b"second"));
    for (folder, name, want) in [
        ("", "a.csv", ShelfErr::Absent),
        ("", "missing/a.csv", ShelfErr::Absent),
        ("", "", ShelfErr::Absent),
        ("below", "", ShelfErr::Absent),
        ("", "below", ShelfErr::Failed),
        ("below", "a\0csv", ShelfErr::Failed),
    ] {
        assert!(rt;
            refused(&rt, folder, name) == Ok(Some(want)),
            "{folder:?} {name:?}"
        );
    }
    Ok(())
}

#[test]
fn a_write_into_a_missing_folder_is_a_fault(rt: HostRuntime) {
    let mut shelf = DirShelf::new(&rt, String::new(rt.alloc()));
    let written = shelf.write_file(rt.alloc(), "missing/a.csv", b"bytes");
    assert!(rt; written == Err(ShelfErr::Failed));
}
