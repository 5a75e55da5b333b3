//! The files that runs leave: the project of three units with a target and boundaries, improved.
use crate::left::{put_files, shelf_with};
use crate::plain::{Host, Outcome, run_plain};
use mz_shelf::MemShelf;
use std::test::Fail;

/// What every project here has in its parameter file.
const COMMON: &[u8] = b"PUNAME pu.dat
FEATNAME feat.dat
PUVSFEATNAME amounts.dat
BOUNDNAME bound.dat
BLM 1
RANDSEED 7
";

/// The files of one improved run.
const ALL: &[u8] = b"NUMITNS 0
RUNMODE 4
SAVERUN 3
SAVEBEST 3
SAVETARGMET 3
SAVESUMMARY 3
SAVESUMSOLN 3
";

const FILES: [(&str, &[u8]); 4] = [
    ("pu.dat", b"id,cost\n1,10\n2,20\n3,30\n"),
    ("feat.dat", b"id,target,spf,name\n1,4,2,f\n"),
    ("amounts.dat", b"species,pu,amount\n1,1,2\n1,2,3\n1,3,4\n"),
    ("bound.dat", b"id1,id2,boundary\n1,2,5\n2,3,7\n1,1,2\n"),
];

/// A shelf with the project, of whose calls these fail.
fn project(rt: &impl Host, lines: &[u8], fails: &[u64], cut: usize) -> Result<MemShelf, Fail> {
    let alloc = rt.alloc();
    let mut input = Vec::from_slice(alloc, COMMON)?;
    input.extend_from_slice(lines)?;
    let fails = Vec::from_slice(alloc, fails)?;
    let mut shelf = shelf_with(alloc, fails, cut, &FILES)?;
    put_files(alloc, &mut shelf, &[("input.dat", &input)])?;
    Ok(shelf)
}

/// The shelf once the project was run to a good end.
fn run_well(rt: &impl Host, lines: &[u8]) -> Result<Option<MemShelf>, Fail> {
    let mut shelf = project(rt, lines, &[], 0)?;
    let outcome = run_plain(rt, &mut shelf)?;
    Ok(if outcome.code == 0 { Some(shelf) } else { None })
}

/// Whether a run of the project leaves these files.
fn leaves(rt: &impl Host, lines: &[u8], files: &[(&str, &[u8])]) -> Result<bool, Fail> {
    let Some(shelf) = run_well(rt, lines)? else {
        return Ok(false);
    };
    Ok(has_files(&shelf, files))
}

fn has_files(shelf: &MemShelf, files: &[(&str, &[u8])]) -> bool {
    for (name, bytes) in files {
        if shelf.file(name) != Some(*bytes) {
            return false;
        }
    }
    true
}

/// Whether a run of the project says these lines.
fn says(rt: &impl Host, lines: &[u8], said: &[u8]) -> Result<bool, Fail> {
    let Some(shelf) = run_well(rt, lines)? else {
        return Ok(false);
    };
    Ok(shelf.said() == said)
}

const SAID: &[u8] = b"seed 7
units 3 zones 2 targets 1 free 3
run 1 score 39.0000 entries 0
best 1 score 39.0000
";

const PLAN: &[u8] = b"planning_unit,zone
1,2
2,2
3,1
score,39.0000
cost,30.0000
boundary,9.0000
penalty,0.0000
shortfall,0.0000
";

const MISSING: &[u8] = b"target,zone,feature,name,level,held,shortfall,met
1,0,1,f,4.0000,5.0000,0.0000,yes
";

const SUMMARY: &[u8] = b"run,score,cost,boundary,penalty,shortfall,missing,entries,seed
1,39.0000,30.0000,9.0000,0.0000,0.0000,0,0,7
";

#[test]
fn an_improved_run_says_its_lines(rt: HostRuntime) -> Result<(), Fail> {
    assert!(rt; says(&rt, ALL, SAID)?);
    Ok(())
}

#[test]
fn an_improved_run_leaves_all_its_files(rt: HostRuntime) -> Result<(), Fail> {
    let files: [(&str, &[u8]); 6] = [
        ("output_r00001.csv", PLAN),
        ("output_mv00001.csv", MISSING),
        ("output_best.csv", PLAN),
        ("output_mvbest.csv", MISSING),
        ("output_sum.csv", SUMMARY),
        (
            "output_ssoln.csv",
            b"planning_unit,zone1,zone2\n1,0,1\n2,0,1\n3,1,0\n",
        ),
    ];
    assert!(rt; leaves(&rt, ALL, &files)?);
    Ok(())
}

const THREE_RUNS: &[u8] = b"NUMITNS 0\nRUNMODE 4\nNUMREPS 3\nSAVESUMSOLN 3\n";

const THREE_SAID: &[u8] = b"seed 7
units 3 zones 2 targets 1 free 3
run 1 score 39.0000 entries 0
run 2 score 39.0000 entries 0
run 3 score 39.0000 entries 0
best 1 score 39.0000
";

#[test]
fn three_runs_are_summed(rt: HostRuntime) -> Result<(), Fail> {
    assert!(rt; says(&rt, THREE_RUNS, THREE_SAID)?);
    let summed: (&str, &[u8]) = (
        "output_ssoln.csv",
        b"planning_unit,zone1,zone2\n1,0,3\n2,0,3\n3,3,0\n",
    );
    assert!(rt; leaves(&rt, THREE_RUNS, &[summed])?);
    Ok(())
}

#[test]
fn save_values_choose_endings(rt: HostRuntime) -> Result<(), Fail> {
    let lines = b"NUMITNS 0\nRUNMODE 4\nSAVEBEST 1\nSAVERUN 2\n";
    let files = [("output_best.dat", PLAN), ("output_r00001.txt", PLAN)];
    assert!(rt; leaves(&rt, lines, &files)?);
    Ok(())
}

#[test]
fn turns_without_entries_are_written(rt: HostRuntime) -> Result<(), Fail> {
    let lines = b"NUMITNS 0\nRUNMODE 4\nSAVETURNS 2\n";
    let turns: (&str, &[u8]) = (
        "output_turns.txt",
        b"marzone turns 1\nrun 1 seed 7 entries 0\n",
    );
    assert!(rt; leaves(&rt, lines, &[turns])?);
    Ok(())
}

#[test]
fn turns_of_one_worker_are_written(rt: HostRuntime) -> Result<(), Fail> {
    let lines = b"NUMITNS 5\nSTARTTEMP 0\nRUNMODE 6\nSAVETURNS 2\n";
    let turns: (&str, &[u8]) = (
        "output_turns.txt",
        b"marzone turns 1\nrun 1 seed 7 entries 5\n00000\n",
    );
    assert!(rt; leaves(&rt, lines, &[turns])?);
    Ok(())
}

/// Worked out by a script, from the rules and by whole sums.
const COOLED: &[u8] = b"planning_unit,zone
1,1
2,1
3,2
score,37.0000
cost,30.0000
boundary,7.0000
penalty,0.0000
shortfall,0.0000
";

#[test]
fn a_drawn_start_is_cooled_over_three_levels(rt: HostRuntime) -> Result<(), Fail> {
    let lines = b"NUMITNS 20
STARTTEMP 30
COOLFAC 0.9
NUMTEMP 3
PROP 0.5
RUNMODE 6
SAVEBEST 3
";
    assert!(rt; leaves(&rt, lines, &[("output_best.csv", COOLED)])?);
    Ok(())
}

const LOCKED_SAID: &[u8] = b"seed 7
units 3 zones 2 targets 1 free 0
run 1 score 37.0000 entries 0
best 1 score 37.0000
";

#[test]
fn locks_that_leave_no_free_unit_leave_no_turns(rt: HostRuntime) -> Result<(), Fail> {
    let lines = b"NUMITNS 10\nRUNMODE 1\nPULOCKNAME lock.dat\n";
    let mut shelf = project(&rt, lines, &[], 0)?;
    put_files(
        rt.alloc(),
        &mut shelf,
        &[("lock.dat", b"puid,zoneid\n1,1\n2,1\n3,2\n")],
    )?;
    let outcome = run_plain(&rt, &mut shelf)?;
    assert_eq!(rt; outcome.code, 0);
    assert!(rt; shelf.said() == LOCKED_SAID);
    Ok(())
}

/// What comes of the project whose eighth call fails once four bytes are written: of its own files that is the one of
/// the run's missing values.
fn cut_short(rt: &impl Host) -> Result<(Outcome, MemShelf), Fail> {
    let mut shelf = project(rt, ALL, &[7], 4)?;
    let outcome = run_plain(rt, &mut shelf)?;
    Ok((outcome, shelf))
}

#[test]
fn a_failing_file_ends_the_run_behind_its_plan(rt: HostRuntime) -> Result<(), Fail> {
    let (outcome, shelf) = cut_short(&rt)?;
    assert_eq!(rt; outcome.code, 3);
    assert_eq!(rt; outcome.trails, 1);
    assert!(rt; shelf.file("output_r00001.csv") == Some(PLAN));
    assert!(rt; shelf.file("output_mv00001.csv") == Some(b"targ".as_slice()));
    assert!(rt;
        shelf
            .said()
            .ends_with(b"refused: fault: output_mv00001.csv\n")
    );
    Ok(())
}
