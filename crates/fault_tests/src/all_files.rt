//! A project that gives every kind of file: each call fails in turn, and each file is absent in turn.
use crate::host::{Host, run};
use crate::shelves::{is_refused, shelf_with};
use mz_shelf::MemShelf;
use std::alloc::Global;
use std::test::Fail;

const INPUT: &[u8] = b"ZONESNAME zones.dat
COSTSNAME costs.dat
PUNAME pu.dat
ZONECOSTNAME zonecost.dat
FEATNAME feat.dat
PUVSFEATNAME amounts.dat
ZONECONTRIBNAME zonecontrib.dat
ZONETARGETNAME zonetarget.dat
PUZONENAME puzone.dat
PULOCKNAME pulock.dat
BOUNDNAME bound.dat
ZONEBOUNDCOSTNAME zoneboundcost.dat
BLM 1
RANDSEED 7
NUMITNS 0
RUNMODE 4
SAVEBEST 3
";

/// The files in the order in which they are read.
fn files() -> [(&'static str, &'static [u8]); 13] {
    [
        ("input.dat", INPUT),
        (
            "zones.dat",
            b"zoneid,zonename\n1,available\n2,grazing\n3,reserve\n",
        ),
        ("costs.dat", b"costid,costname\n1,land\n2,care\n"),
        ("pu.dat", b"id,land,care\n101,12.5,3\n102,8,2.25\n"),
        (
            "zonecost.dat",
            b"zoneid,costid,multiplier\n2,1,0.4\n2,2,1\n3,1,1\n3,2,1\n",
        ),
        (
            "feat.dat",
            b"id,target,prop,spf,name\n1,4,0,2,woodland\n2,0,0.3,1,heath\n",
        ),
        (
            "amounts.dat",
            b"featureid,puid,amount\n1,101,2\n1,102,3.5\n2,102,1\n",
        ),
        (
            "zonecontrib.dat",
            b"zoneid,featureid,fraction\n2,1,0.5\n3,1,1\n3,2,1\n",
        ),
        (
            "zonetarget.dat",
            b"zoneid,featureid,target,targettype\n3,1,2,0\n3,2,0.1,1\n",
        ),
        ("puzone.dat", b"puid,zoneid\n102,1\n102,2\n"),
        ("pulock.dat", b"puid,zoneid\n101,3\n"),
        ("bound.dat", b"id1,id2,boundary\n101,102,1.5\n101,101,0.7\n"),
        (
            "zoneboundcost.dat",
            b"zoneid1,zoneid2,cost\n1,2,1\n1,3,1\n2,3,0.5\n",
        ),
    ]
}

const SAID: &[u8] = b"seed 7
units 2 zones 3 targets 4 free 1
run 1 score 46.1188 entries 0
best 1 score 46.1188
";

const BEST: &[u8] = b"planning_unit,zone
101,3
102,2
score,46.1188
cost,20.9500
boundary,1.4500
penalty,23.7188
shortfall,0.6500
";

#[test]
fn every_kind_of_file_is_taken(rt: HostRuntime) -> Result<(), Fail> {
    let mut shelf = shelf_with(rt.alloc(), &[], 0, &files())?;
    let outcome = run(&rt, &mut shelf)?;
    assert!(rt; outcome.is(0, "", 1));
    assert!(rt; shelf.said() == SAID);
    assert!(rt; shelf.file("output_best.csv") == Some(BEST));
    Ok(())
}

/// Whether the files before this one, and this one, were read, each once and in order, and nothing was written.
fn has_read_to(shelf: &MemShelf, name: &str) -> bool {
    let wanted = files().map(|(name, _)| name);
    let reads = shelf.reads();
    shelf.file("output_best.csv").is_none()
        && reads.last().is_some_and(|last| last.as_str() == name)
        && reads
            .iter()
            .zip(wanted)
            .all(|(read, wanted)| read.as_str() == wanted)
}

/// Whether a run where the read of this number fails ends with a fault of this name behind it.
fn fails_at(rt: &impl Host, call: u64, name: &str) -> Result<bool, Fail> {
    let alloc = rt.alloc();
    let mut shelf = shelf_with(alloc, &[call], 4, &files())?;
    let outcome = run(rt, &mut shelf)?;
    let text = format!(in alloc; "fault: {name}")?;
    Ok(
        outcome.is(3, name, 0)
            && has_read_to(&shelf, name)
            && is_refused(alloc, &shelf, text.as_str())?,
    )
}

#[test]
fn each_read_may_fail(rt: HostRuntime) -> Result<(), Fail> {
    for (call, (name, _)) in (0..).zip(files()) {
        assert!(rt; fails_at(&rt, call, name)?, "{name}");
    }
    Ok(())
}

/// A shelf with all files but the one of this name.
fn shelf_without(alloc: Global, name: &str) -> Result<MemShelf, Fail> {
    let mut shelf = shelf_with(alloc, &[], 0, &[])?;
    for (other, bytes) in files() {
        if other != name {
            shelf.put(alloc, other, bytes)?;
        }
    }
    Ok(shelf)
}

/// Whether a run without this file ends there.
fn misses(rt: &impl Host, name: &str) -> Result<bool, Fail> {
    let alloc = rt.alloc();
    let mut shelf = shelf_without(alloc, name)?;
    let outcome = run(rt, &mut shelf)?;
    let text = format!(in alloc; "absent: {name}")?;
    Ok(
        outcome.is(4, name, 0)
            && has_read_to(&shelf, name)
            && is_refused(alloc, &shelf, text.as_str())?,
    )
}

#[test]
fn each_file_may_be_absent(rt: HostRuntime) -> Result<(), Fail> {
    for (name, _) in files() {
        assert!(rt; misses(&rt, name)?, "{name}");
    }
    Ok(())
}

/// How a run ends whose say or write of this number fails.
fn ends_with(rt: &impl Host, call: u64, name: &str, trails: usize) -> Result<bool, Fail> {
    let mut shelf = shelf_with(rt.alloc(), &[call], 4, &files())?;
    Ok(run(rt, &mut shelf)?.is(3, name, trails))
}

#[test]
fn each_say_and_write_may_fail(rt: HostRuntime) -> Result<(), Fail> {
    assert!(rt; ends_with(&rt, 13, "-", 0)?);
    assert!(rt; ends_with(&rt, 14, "-", 1)?);
    assert!(rt; ends_with(&rt, 15, "output_best.csv", 1)?);
    assert!(rt; ends_with(&rt, 16, "-", 1)?);
    Ok(())
}
