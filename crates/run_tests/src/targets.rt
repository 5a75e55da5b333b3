//! Projects with targets and boundaries, run whole over shelves in memory.
use crate::left::{Left, left_on, put_files, shelf_with};
use crate::plain::Host;
use mz_shelf::MemShelf;
use std::alloc::Global;
use std::test::Fail;

const INPUT: &str = "PUNAME pu.dat
FEATNAME feat.dat
PUVSFEATNAME amounts.dat
BOUNDNAME bound.dat
BLM 1
RANDSEED 7
NUMITNS 0
STARTTEMP 0
RUNMODE 6
SAVEBEST 3
";

const UNITS: &[u8] = b"id,cost\n1,10\n2,20\n3,30\n";

const FEATURES: &[u8] = b"id,target,spf,name\n1,4,2,f\n";

const AMOUNTS: &[u8] = b"species,pu,amount\n1,1,2\n1,2,3\n1,3,4\n";

const BOUNDS: &[u8] = b"id1,id2,boundary\n1,2,5\n2,3,7\n1,1,2\n";

/// The files of the project beside its parameter file.
const FILES: [(&str, &[u8]); 4] = [
    ("pu.dat", UNITS),
    ("feat.dat", FEATURES),
    ("amounts.dat", AMOUNTS),
    ("bound.dat", BOUNDS),
];

/// What a run of the project leaves, with further lines of its parameter file, and with these files in
/// the place of its own.
fn project(rt: &impl Host, lines: &str, files: &[(&str, &[u8])]) -> Result<Left, Fail> {
    let alloc = rt.alloc();
    let mut shelf = shelf_with(alloc, Vec::new(alloc), 0, &FILES)?;
    fill(alloc, &mut shelf, lines, files)?;
    left_on(rt, &mut shelf, "output_best.csv")
}

fn fill(
    alloc: Global,
    shelf: &mut MemShelf,
    lines: &str,
    files: &[(&str, &[u8])],
) -> Result<(), Fail> {
    put_input(alloc, shelf, lines)?;
    put_files(alloc, shelf, files)
}

/// Puts the parameter file, with these further lines.
fn put_input(alloc: Global, shelf: &mut MemShelf, lines: &str) -> Result<(), Fail> {
    let mut input = String::from_str(alloc, INPUT)?;
    input.push_str(lines)?;
    shelf.put(alloc, "input.dat", input.as_bytes())?;
    Ok(())
}

/// Whether a good run of the project leaves this file of the best run.
fn has_best(
    rt: &impl Host,
    lines: &str,
    files: &[(&str, &[u8])],
    best: &str,
) -> Result<bool, Fail> {
    let left = project(rt, lines, files)?;
    Ok(left.outcome.code == 0 && left.has_best(best.as_bytes()))
}

/// Whether a run of the project ends with this exit status, and with this text said.
fn says(
    rt: &impl Host,
    lines: &str,
    files: &[(&str, &[u8])],
    code: u8,
    said: &str,
) -> Result<bool, Fail> {
    let left = project(rt, lines, files)?;
    Ok(left.outcome.code == code && left.has_said(said.as_bytes()))
}

const MISSES: &str = "planning_unit,zone
1,1
2,1
3,1
score,60.0000
cost,0.0000
boundary,0.0000
penalty,60.0000
shortfall,4.0000
";

const MISSES_SAID: &str = "seed 7
units 3 zones 2 targets 1 free 3
run 1 score 60.0000 entries 0
best 1 score 60.0000
";

#[test]
fn what_a_plan_misses_is_scored(rt: HostRuntime) -> Result<(), Fail> {
    assert!(rt; has_best(&rt, "", &[], MISSES)?);
    assert!(rt; says(&rt, "", &[], 0, MISSES_SAID)?);
    Ok(())
}

const LOCKED: &str = "planning_unit,zone
1,1
2,1
3,2
score,37.0000
cost,30.0000
boundary,7.0000
penalty,0.0000
shortfall,0.0000
";

const LOCKED_SAID: &str = "seed 7
units 3 zones 2 targets 1 free 0
run 1 score 37.0000 entries 0
best 1 score 37.0000
";

#[test]
fn locked_units_are_scored_with_their_boundaries(rt: HostRuntime) -> Result<(), Fail> {
    let locks = ("lock.dat", b"puid,zoneid\n1,1\n2,1\n3,2\n".as_slice());
    let lines = "PULOCKNAME lock.dat\n";
    assert!(rt; has_best(&rt, lines, &[locks], LOCKED)?);
    assert!(rt; says(&rt, lines, &[locks], 0, LOCKED_SAID)?);
    Ok(())
}

const WITH_RATES: &str = "planning_unit,zone
1,2
2,1
3,1
score,43.5000
cost,10.0000
boundary,3.5000
penalty,30.0000
shortfall,2.0000
";

#[test]
fn boundaries_between_zones_are_scored(rt: HostRuntime) -> Result<(), Fail> {
    let locks = ("lock.dat", b"puid,zoneid\n1,2\n2,1\n3,1\n".as_slice());
    let rates = ("rates.dat", b"zoneid1,zoneid2,cost\n1,2,0.5\n".as_slice());
    let lines = "PULOCKNAME lock.dat\nZONEBOUNDCOSTNAME rates.dat\n";
    assert!(rt; has_best(&rt, lines, &[locks, rates], WITH_RATES)?);
    Ok(())
}

const WITH_SHARES: &str = "planning_unit,zone
1,2
2,1
3,1
score,43.3333
cost,10.0000
boundary,0.0000
penalty,33.3333
shortfall,2.5000
";

#[test]
fn a_share_of_the_total_may_be_the_greater_target(rt: HostRuntime) -> Result<(), Fail> {
    let files = [
        ("lock.dat", b"puid,zoneid\n1,2\n2,1\n3,1\n".as_slice()),
        ("feat.dat", b"id,target,prop,spf\n1,4,0.5,2\n".as_slice()),
        ("bound.dat", b"id1,id2,boundary\n".as_slice()),
    ];
    assert!(rt; has_best(&rt, "PULOCKNAME lock.dat\n", &files, WITH_SHARES)?);
    Ok(())
}

/// Whether the project is refused with this text.
fn refuses(rt: &impl Host, lines: &str, files: &[(&str, &[u8])], said: &str) -> Result<bool, Fail> {
    let alloc = rt.alloc();
    says(rt, lines, files, 2, said)
}

#[test]
fn a_lock_outside_its_zones_is_refused(rt: HostRuntime) -> Result<(), Fail> {
    let sets = ("s", b"puid,zoneid\n1,1\n".as_slice());
    let locks = ("l", b"puid,zoneid\n1,2\n".as_slice());
    let lines = "PUZONENAME s\nPULOCKNAME l\n";
    let said = "refused: pulock: line 2 unit 1 is locked outside its zones\n";
    assert!(rt; refuses(&rt, lines, &[sets, locks], said)?);
    Ok(())
}

#[test]
fn a_cut_amount_file_is_refused(rt: HostRuntime) -> Result<(), Fail> {
    let cut = ("amounts.dat", b"species,pu,amount\n1,1,2\n1,2".as_slice());
    assert!(rt; refuses(&rt, "", &[cut], "refused: amounts: line 3 uneven\n")?);
    Ok(())
}

#[test]
fn an_empty_amount_file_is_refused(rt: HostRuntime) -> Result<(), Fail> {
    let empty = ("amounts.dat", b"".as_slice());
    assert!(rt; refuses(&rt, "", &[empty], "refused: amounts: no header\n")?);
    Ok(())
}

#[test]
fn a_repeated_zone_boundary_cost_is_refused(rt: HostRuntime) -> Result<(), Fail> {
    let costs = ("s", b"zoneid1,zoneid2,cost\n1,2,0.5\n2,1,0.6\n".as_slice());
    let said = "refused: zoneboundcost: line 3 repeated\n";
    assert!(rt; refuses(&rt, "ZONEBOUNDCOSTNAME s\n", &[costs], said)?);
    Ok(())
}

#[test]
fn a_type_of_zone_target_is_left_out(rt: HostRuntime) -> Result<(), Fail> {
    let targets = (
        "s",
        b"zoneid,featureid,target,targettype\n2,1,4,4\n".as_slice(),
    );
    let said = "refused: zonetarget: line 2 left out targettype\n";
    assert!(rt; refuses(&rt, "ZONETARGETNAME s\n", &[targets], said)?);
    Ok(())
}

#[test]
fn a_row_that_weighs_too_much_is_refused(rt: HostRuntime) -> Result<(), Fail> {
    let features = ("feat.dat", b"id,target,spf\n1,4,1000000000000\n".as_slice());
    let units = ("pu.dat", b"id,cost\n1,40\n2,70\n3,120\n".as_slice());
    let said = "refused: limit: weight of feature 1\n";
    assert!(rt; refuses(&rt, "", &[features, units], said)?);
    Ok(())
}
