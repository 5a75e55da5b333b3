//! Parameter files and unit files that are taken or refused.
use crate::left::{Left, left_by, left_on, shelf_with};
use crate::plain::{BEST, Host, INPUT, SAID, UNITS, ask_job, run_plain};
use mz_model::{Plan, Problem, evaluate};
use mz_shelf::{Shelf, ShelfErr};
use std::alloc::{AllocError, Global};
use std::marker::Model;
use std::test::Fail;

/// What a run of these two files leaves.
fn left_of<'a>(rt: &impl Host, input: &'a [u8], units: &'a [u8]) -> Result<Left, Fail> {
    left_by(rt, &[("input.dat", input), ("pu.dat", units)])
}

/// Whether these two files are refused with this text.
fn refuses<'a>(rt: &impl Host, input: &'a [u8], units: &'a [u8], said: &str) -> Result<bool, Fail> {
    let left = left_of(rt, input, units)?;
    Ok(left.outcome.code == 2 && left.has_said(said.as_bytes()))
}

/// A parameter file that ends in these lines.
fn with_lines(alloc: Global, lines: &[u8]) -> Result<Vec<u8>, AllocError> {
    let mut input = Vec::from_slice(alloc, INPUT)?;
    input.extend_from_slice(lines)?;
    Ok(input)
}

/// Whether the plain project with these further lines is refused with this text.
fn refuses_lines(rt: &impl Host, lines: &[u8], said: &str) -> Result<bool, Fail> {
    let alloc = rt.alloc();
    refuses(rt, &with_lines(alloc, lines)?, UNITS, said)
}

#[test]
fn a_further_line_is_refused(rt: HostRuntime) -> Result<(), Fail> {
    let available = "refused: input: AVAILABLEZONE out of range\n";
    assert!(rt; refuses_lines(&rt, b"RANDSEED 7", "refused: input: RANDSEED repeated\n")?);
    assert!(rt; refuses_lines(&rt, b"BLM x", "refused: input: BLM bad value\n")?);
    assert!(rt;
        refuses_lines(
            &rt,
            b"costthresh 1",
            "refused: input: COSTTHRESH left out\n"
        )?
    );
    assert!(rt; refuses_lines(&rt, b"AVAILABLEZONE 3", available)?);
    Ok(())
}

/// Whether this parameter file is refused with this text.
fn refuses_input(rt: &impl Host, input: &[u8], said: &str) -> Result<bool, Fail> {
    refuses(rt, input, UNITS, said)
}

#[test]
fn a_parameter_file_without_units_is_refused(rt: HostRuntime) -> Result<(), Fail> {
    let input = b"RANDSEED 7\nNUMITNS 5\nSTARTTEMP 0\nRUNMODE 6\n";
    assert!(rt; refuses_input(&rt, input, "refused: input: PUNAME missing\n")?);
    Ok(())
}

#[test]
fn other_run_modes_are_left_out(rt: HostRuntime) -> Result<(), Fail> {
    let said = "refused: input: RUNMODE left out\n";
    assert!(rt; refuses_input(&rt, b"PUNAME pu.dat\nSTARTTEMP 0\nRUNMODE 2\n", said)?);
    Ok(())
}

#[test]
fn too_many_proposals_are_refused(rt: HostRuntime) -> Result<(), Fail> {
    let said = "refused: input: NUMITNS out of range\n";
    assert!(rt; refuses_input(&rt, b"PUNAME pu.dat\nNUMITNS 10000001\n", said)?);
    Ok(())
}

/// Whether this unit file is refused with this text.
fn refuses_units(rt: &impl Host, units: &[u8], said: &str) -> Result<bool, Fail> {
    refuses(rt, INPUT, units, said)
}

#[test]
fn a_unit_file_without_a_column_is_refused(rt: HostRuntime) -> Result<(), Fail> {
    assert!(rt; refuses_units(&rt, b"", "refused: units: no header\n")?);
    assert!(rt; refuses_units(&rt, b"id\n1\n", "refused: units: column cost 1 missing\n")?);
    assert!(rt; refuses_units(&rt, b"cost\n1\n", "refused: units: column id missing\n")?);
    Ok(())
}

#[test]
fn a_unit_that_is_no_unit_is_refused(rt: HostRuntime) -> Result<(), Fail> {
    let repeated = "refused: units: line 3 repeated\n";
    let negative = "refused: units: line 2 bad number in cost 1: negative\n";
    assert!(rt;
        refuses_units(
            &rt,
            b"id,cost\n1,10\n2\n",
            "refused: units: line 3 uneven\n"
        )?
    );
    assert!(rt; refuses_units(&rt, b"id,cost\n1,10\n01,20\n", repeated)?);
    assert!(rt; refuses_units(&rt, b"id,cost\n1,-5\n", negative)?);
    Ok(())
}

#[test]
fn costs_above_their_limit_are_refused(rt: HostRuntime) -> Result<(), Fail> {
    let two = b"id,cost\n1,50000000000000\n2,50000000000000.0001\n";
    let three = b"id,cost\n1,50000000000000\n2,50000000000000\n3,50000000000000\n";
    assert!(rt; refuses_units(&rt, two, "refused: limit: cost\n")?);
    assert!(rt; refuses_units(&rt, three, "refused: limit: cost\n")?);
    Ok(())
}

const SEED_0: &[u8] = b"seed 0
units 3 zones 2 targets 0 free 3
run 1 score 0.0000 entries 0
best 1 score 0.0000
";

const GREATEST_SEED: &[u8] = b"seed 2147483647
units 3 zones 2 targets 0 free 3
run 1 score 0.0000 entries 0
best 1 score 0.0000
";

/// Whether this is said of a project with this RANDSEED, where 0 is handed in.
fn says_with_seed(rt: &impl Host, seed: &[u8], said: &[u8]) -> Result<bool, Fail> {
    let alloc = rt.alloc();
    let mut input = Vec::from_slice(alloc, b"PUNAME pu.dat\nNUMITNS 0\nSTARTTEMP 0\nRUNMODE 6\n")?;
    input.extend_from_slice(seed)?;
    Ok(left_of(rt, &input, UNITS)?.has_said(said))
}

#[test]
fn a_negative_seed_takes_the_number_that_is_handed_in(rt: HostRuntime) -> Result<(), Fail> {
    assert!(rt; says_with_seed(&rt, b"RANDSEED -1\n", SEED_0)?);
    assert!(rt; says_with_seed(&rt, b"", SEED_0)?);
    assert!(rt; says_with_seed(&rt, b"RANDSEED 2147483647\n", GREATEST_SEED)?);
    Ok(())
}

/// The score of a plan of the project of these two files, in ten-thousandths.
fn score_of<'a>(
    alloc: Global,
    input: &'a [u8],
    units: &'a [u8],
    zones: &[u8],
) -> Result<Option<u128>, Fail> {
    let files = [("input.dat", input), ("pu.dat", units)];
    let mut shelf = shelf_with(alloc, Vec::new(alloc), 0, &files)?;
    Ok(ask_job(alloc, &mut shelf, |job| scored(alloc, &job.problem, zones))?.flatten())
}

fn scored(alloc: Global, problem: &Problem, zones: &[u8]) -> Option<u128> {
    match Plan::of(alloc, problem, zones) {
        Ok(plan) => Some(evaluate(problem, &plan).total),
        Err(_) => None,
    }
}

#[test]
fn units_may_stand_in_any_table(rt: HostRuntime) -> Result<(), Fail> {
    let exponents = b"id,cost\n1,1.5E+1\n2,20\n3,30\n";
    let tabs = b"cost\tname\tid\r\n10\ta\t1\r\n20\tb\t2\r\n30\tc\t3";
    assert_eq!(rt;
        score_of(rt.alloc(), INPUT, exponents, &[1, 0, 0])?,
        Some(150_000)
    );
    assert_eq!(rt;
        score_of(rt.alloc(), INPUT, tabs, &[1, 0, 0])?,
        Some(100_000)
    );
    Ok(())
}

#[test]
fn units_cost_nothing_in_the_available_zone(rt: HostRuntime) -> Result<(), Fail> {
    let input = with_lines(rt.alloc(), b"AVAILABLEZONE 2\n")?;
    assert_eq!(rt;
        score_of(rt.alloc(), &input, UNITS, &[0, 1, 1])?,
        Some(100_000)
    );
    Ok(())
}

/// What a run of the plain project in folders leaves.
fn left_in_folders(rt: &impl Host) -> Result<Left, Fail> {
    let alloc = rt.alloc();
    let input = with_lines(alloc, b"INPUTDIR in/\nOUTPUTDIR out\n")?;
    let files = [("input.dat", input.as_slice()), ("in/pu.dat", UNITS)];
    let mut shelf = shelf_with(alloc, Vec::new(alloc), 0, &files)?;
    left_on(rt, &mut shelf, "out/output_best.csv")
}

#[test]
fn folders_stand_before_the_names(rt: HostRuntime) -> Result<(), Fail> {
    let left = left_in_folders(&rt)?;
    assert_eq!(rt; left.outcome.code, 0);
    assert!(rt; left.has_said(SAID));
    assert!(rt; left.has_best(BEST));
    Ok(())
}

/// Whether this is said of a project of these units and this further file.
fn says<'a>(
    rt: &impl Host,
    input: &'a [u8],
    units: &'a [u8],
    file: &'a [u8],
    said: &str,
) -> Result<bool, Fail> {
    let files = [("input.dat", input), ("pu.dat", units), ("f.dat", file)];
    let left = left_by(rt, &files)?;
    Ok(left.has_said(said.as_bytes()))
}

const ONE_LOCKED: &str = "seed 7
units 3 zones 2 targets 0 free 2
run 1 score 30.0000 entries 5
best 1 score 30.0000
";

const ALL_IN_ONE_ZONE: &str = "seed 7
units 3 zones 2 targets 0 free 0
run 1 score 60.0000 entries 0
best 1 score 60.0000
";

#[test]
fn a_lock_limits_the_plan(rt: HostRuntime) -> Result<(), Fail> {
    let input = with_lines(rt.alloc(), b"PULOCKNAME f.dat\n")?;
    let lock = b"puid,zoneid\n3,2\n";
    assert!(rt; says(&rt, &input, UNITS, lock, ONE_LOCKED)?);
    Ok(())
}

#[test]
fn zone_sets_limit_the_plan(rt: HostRuntime) -> Result<(), Fail> {
    let input = with_lines(rt.alloc(), b"PUZONENAME f.dat\n")?;
    let sets = b"puid,zoneid\n1,2\n2,2\n3,2\n";
    assert!(rt; says(&rt, &input, UNITS, sets, ALL_IN_ONE_ZONE)?);
    Ok(())
}

#[test]
fn a_second_lock_of_a_unit_is_refused(rt: HostRuntime) -> Result<(), Fail> {
    let input = with_lines(rt.alloc(), b"PUZONENAME f.dat\nPULOCKNAME f.dat\n")?;
    let locks = b"puid,zoneid\n1,1\n1,2\n";
    let said = "refused: pulock: line 3 repeated\n";
    assert!(rt; says(&rt, &input, UNITS, locks, said)?);
    Ok(())
}

#[test]
fn a_second_zone_of_one_id_is_refused(rt: HostRuntime) -> Result<(), Fail> {
    let input = with_lines(rt.alloc(), b"ZONESNAME f.dat\n")?;
    let zones = b"id,name\n1,a\n1,b\n";
    let said = "refused: zones: line 3 repeated\n";
    assert!(rt; says(&rt, &input, UNITS, zones, said)?);
    Ok(())
}

/// Whether a project is refused whose one unit is locked outside its zones.
fn refuses_a_lock(rt: &impl Host) -> Result<bool, Fail> {
    let alloc = rt.alloc();
    let input = with_lines(alloc, b"PUZONENAME sets.dat\nPULOCKNAME locks.dat\n")?;
    let files = [
        ("input.dat", input.as_slice()),
        ("pu.dat", UNITS),
        ("sets.dat", b"puid,zoneid\n1,1\n"),
        ("locks.dat", b"puid,zoneid\n1,2\n"),
    ];
    let left = left_by(rt, &files)?;
    let said = "refused: pulock: line 2 unit 1 is locked outside its zones\n";
    Ok(left.outcome.code == 2 && left.has_said(said.as_bytes()))
}

#[test]
fn a_lock_outside_its_zones_is_refused(rt: HostRuntime) -> Result<(), Fail> {
    assert!(rt; refuses_a_lock(&rt)?);
    Ok(())
}

const NO_UNITS: &str = "seed 7
units 0 zones 2 targets 0 free 0
run 1 score 0.0000 entries 0
best 1 score 0.0000
";

#[test]
fn a_project_may_have_no_units(rt: HostRuntime) -> Result<(), Fail> {
    assert!(rt; says(&rt, INPUT, b"id,cost\n", b"", NO_UNITS)?);
    Ok(())
}

/// A shelf whose every file has a byte too many.
#[derive(Drop)]
struct LongShelf {
    overs: u64,
}

impl Model for LongShelf {
    ghost use Rattle.mz_shelf.specs.State.{Counts};

    ghost Value = { Counts };

    ghost view = { λ a. record {
      faults = 0;
      misses = 0;
      overs = a.overs;
    } };
}

impl Shelf for LongShelf {
    ghost use Rattle.mz_shelf.specs.Folder.{untold};

    ghost state = { untold };

    fn read_file(&mut self, _alloc: Global, _name: &str) -> Result<Vec<u8>, ShelfErr> {
        self.overs = self.overs.saturating_add(1);
        Err(ShelfErr::TooLong)
    }

    fn write_file(&mut self, _alloc: Global, _name: &str, _bytes: &[u8]) -> Result<(), ShelfErr> {
        Ok(())
    }

    fn say(&mut self, _alloc: Global, _bytes: &[u8]) -> Result<(), ShelfErr> {
        Ok(())
    }
}

#[test]
fn a_parameter_file_may_be_too_long(rt: HostRuntime) -> Result<(), Fail> {
    let outcome = run_plain(&rt, &mut LongShelf { overs: 0 })?;
    assert_eq!(rt; outcome.code, 2);
    assert_eq!(rt; outcome.status.as_str(), "too long");
    Ok(())
}
