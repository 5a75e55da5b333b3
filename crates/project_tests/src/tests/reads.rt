//! Which files are read, and in which order: where call number `call` fails, the name is that of its file.
use super::{Reading, UNITS, ask_failing};
use mz_project::ReadFault;
use std::alloc::Global;
use std::test::Fail;

const EVERY_FILE: &str = "ZONESNAME z
COSTSNAME c
ZONECOSTNAME m
FEATNAME f
PUVSFEATNAME a
ZONECONTRIBNAME q
ZONETARGETNAME t
PUZONENAME s
PULOCKNAME l
BOUNDNAME b
ZONEBOUNDCOSTNAME k";

/// Whether the read of the file of that name fails where that call does; `none` is where every call is done.
fn reads(
    alloc: Global,
    lines: &str,
    files: &[(&str, &str)],
    call: u64,
    name: &str,
) -> Result<bool, Fail> {
    let fails = vec![in alloc; call]?;
    ask_failing(
        alloc,
        fails,
        lines,
        files,
        |reading| fails_on(reading, name),
    )
}

fn fails_on(reading: &Reading, name: &str) -> bool {
    match reading {
        Err(ReadFault::Shelf(found)) => found.as_str() == name,
        Err(_) => false,
        Ok(_) => name == "none",
    }
}

/// The same in a project that gives every file.
fn reads_every(alloc: Global, call: u64, name: &str) -> Result<bool, Fail> {
    let files = [
        ("z", "id,name\n1,a\n2,b\n"),
        ("c", "costid,costname\n1,cost\n"),
        ("pu.dat", "id,cost\n1,10\n"),
        ("m", "zoneid,costid,multiplier\n2,1,1\n"),
        ("f", "id\n1\n"),
        ("a", "species,pu,amount\n1,1,2\n"),
        ("q", "zoneid,featureid,fraction\n2,1,1\n"),
        ("t", "zoneid,featureid,target\n2,1,1\n"),
        ("s", "puid,zoneid\n1,2\n"),
        ("l", "puid,zoneid\n1,2\n"),
        ("b", "id1,id2,boundary\n1,1,2\n"),
        ("k", "zoneid1,zoneid2,cost\n1,2,1\n"),
    ];
    reads(alloc, EVERY_FILE, &files, call, name)
}

#[test]
fn each_given_file_is_read_once_and_in_order(rt: HostRuntime) -> Result<(), Fail> {
    let names = [
        "input.dat",
        "z",
        "c",
        "pu.dat",
        "m",
        "f",
        "a",
        "q",
        "t",
        "s",
        "l",
        "b",
        "k",
        "none",
    ];
    for (call, name) in names.iter().enumerate() {
        assert!(rt; reads_every(rt.alloc(), call as u64, name)?, "{name}");
    }
    Ok(())
}

#[test]
fn a_file_that_is_not_given_is_not_read(rt: HostRuntime) -> Result<(), Fail> {
    let names = ["input.dat", "pu.dat", "none"];
    for (call, name) in names.iter().enumerate() {
        assert!(rt;
            reads(rt.alloc(), "", &[UNITS], call as u64, name)?,
            "{name}"
        );
    }
    Ok(())
}
