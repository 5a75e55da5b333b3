//! The texts of project 7. Its words are those of another program that makes Pcg32's.
use crate::{GenFault, make_files};
use mz_shelf::{MemShelf, SafeShelf};
use std::alloc::Global;
use std::test::Fail;

fn begins(file: Option<&[u8]>, front: &[u8]) -> bool {
    match file {
        Some(bytes) => bytes.starts_with(front),
        None => false,
    }
}

fn ends(file: Option<&[u8]>, back: &[u8]) -> bool {
    match file {
        Some(bytes) => bytes.ends_with(back),
        None => false,
    }
}

fn is_whole(file: Option<&[u8]>, text: &[u8]) -> bool {
    match file {
        Some(bytes) => bytes == text,
        None => false,
    }
}

fn made(alloc: Global) -> Option<SafeShelf> {
    let mut shelf = SafeShelf::new(alloc).ok()?;
    make_files(alloc, &mut shelf, 7).ok()?;
    Some(shelf)
}

/// Whether a file of the project begins and ends so.
fn runs(alloc: Global, name: &str, front: &[u8], back: &[u8]) -> bool {
    match made(alloc) {
        Some(shelf) => begins(shelf.file(name), front) && ends(shelf.file(name), back),
        None => false,
    }
}

#[test]
fn units_have_drawn_costs(rt: HostRuntime) {
    let front = b"id,cost\n1,95\n2,64\n3,6\n4,82\n";
    assert!(rt; runs(rt.alloc(), "pu.dat", front, b"\n2000,19\n"));
}

#[test]
fn amounts_stand_in_order_of_unit_and_feature(rt: HostRuntime) {
    let front = b"featureid,puid,amount\n1,1,6\n4,1,4\n7,1,4\n9,1,8\n";
    assert!(rt; runs(rt.alloc(), "amounts.dat", front, b"\n19,2000,8\n"));
}

#[test]
fn units_stand_in_rows(rt: HostRuntime) {
    let front = b"id1,id2,boundary\n1,2,1\n1,51,1\n2,3,1\n2,52,1\n";
    assert!(rt;
        runs(
            rt.alloc(),
            "bound.dat",
            front,
            b"\n1998,1999,1\n1999,2000,1\n"
        )
    );
}

#[test]
fn features_and_contributions_go_to_20(rt: HostRuntime) {
    let alloc = rt.alloc();
    let features = b"id,prop,spf,name\n1,0.3,1,f1\n2,0.3,1,f2\n";
    assert!(rt; runs(alloc, "feat.dat", features, b"\n20,0.3,1,f20\n"));
    let contribs = b"zoneid,featureid,fraction\n2,1,0.5\n3,1,1\n2,2,0.5\n";
    assert!(rt; runs(alloc, "contrib.dat", contribs, b"\n2,20,0.5\n3,20,1\n"));
}

#[test]
fn one_unit_in_200_is_locked(rt: HostRuntime) {
    let alloc = rt.alloc();
    assert!(rt;
        runs(
            alloc,
            "pulock.dat",
            b"puid,zoneid\n1,3\n201,3\n",
            b"\n1801,3\n"
        )
    );
    let front = b"puid,zoneid\n101,1\n101,2\n301,1\n";
    assert!(rt; runs(alloc, "puzone.dat", front, b"\n1901,1\n1901,2\n"));
}

#[test]
fn the_number_is_the_random_seed(rt: HostRuntime) {
    let front = b"PUNAME pu.dat\nFEATNAME feat.dat\nPUVSFEATNAME amounts.dat\n";
    let back = b"
BLM 0.5
RANDSEED 7
NUMREPS 1
NUMITNS 100000
STARTTEMP -1
NUMTEMP 1000
RUNMODE 6
SAVEBEST 3
SAVESUMMARY 3
SAVETURNS 2
";
    assert!(rt; runs(rt.alloc(), "input.dat", front, back));
}

fn names(fault: Option<GenFault>, name: &str) -> bool {
    match fault {
        Some(GenFault::Shelf(file)) => file.as_str() == name,
        _ => false,
    }
}

#[test]
fn three_files_are_whole_where_the_fourth_write_fails(rt: HostRuntime) -> Result<(), Fail> {
    let alloc = rt.alloc();
    let mut shelf = MemShelf::new(alloc, vec![in alloc; 3]?, 0)?;
    let fault = make_files(alloc, &mut shelf, 7).err();
    assert!(rt; names(fault, "zonecost.dat"));
    assert!(rt; ends(shelf.file("input.dat"), b"\nSAVETURNS 2\n"));
    let zones = b"zoneid,zonename\n1,available\n2,partial\n3,full\n";
    assert!(rt; is_whole(shelf.file("zones.dat"), zones));
    assert!(rt; ends(shelf.file("pu.dat"), b"\n2000,19\n"));
    assert!(rt; is_whole(shelf.file("zonecost.dat"), b""));
    assert!(rt; shelf.file("feat.dat").is_none());
    assert_eq!(rt; shelf.faults(), 1);
    Ok(())
}
