//! What accepted projects are.
use super::{Reading, UNITS, ask};
use mz_model::Problem;
use std::alloc::Global;
use std::test::Fail;

/// The cost term of a unit in a zone, by place, in ten-thousandths.
fn term_of(
    alloc: Global,
    lines: &str,
    files: &[(&str, &str)],
    unit: u32,
    zone: u8,
) -> Result<Option<u64>, Fail> {
    ask(alloc, lines, files, |reading| term_in(reading, unit, zone))
}

fn term_in(reading: &Reading, unit: u32, zone: u8) -> Option<u64> {
    match reading {
        Ok(problem) if unit < problem.units() && zone < problem.zones() => {
            Some(problem.cost_of(unit, zone))
        }
        _ => None,
    }
}

/// Whether the one unit of a project costs this much in the second zone, and nothing in the first.
fn costs_in_second(alloc: Global, multipliers: &str, cost: u64) -> Result<bool, Fail> {
    let lines = "COSTSNAME c\nZONECOSTNAME m";
    let files = [
        ("c", "costid,costname\n1,cost\n2,hire\n"),
        ("pu.dat", "id,cost,hire\n1,10,4\n"),
        ("m", multipliers),
    ];
    let first = term_of(alloc, lines, &files, 0, 0)?;
    let second = term_of(alloc, lines, &files, 0, 1)?;
    Ok(first == Some(0) && second == Some(cost))
}

#[test]
fn costs_are_weighed_by_zone(rt: HostRuntime) -> Result<(), Fail> {
    let alloc = rt.alloc();
    let both = "zoneid,costid,multiplier\n2,1,0.5\n2,2,1\n";
    let one = "zoneid,costid,multiplier\n2,1,0.333335\n";
    assert!(rt; costs_in_second(alloc, both, 90_000)?);
    assert!(rt; costs_in_second(alloc, one, 33_334)?);
    Ok(())
}

#[test]
fn a_unit_costs_nothing_in_the_available_zone(rt: HostRuntime) -> Result<(), Fail> {
    let alloc = rt.alloc();
    assert_eq!(rt; term_of(alloc, "", &[UNITS], 0, 0)?, Some(0));
    assert_eq!(rt; term_of(alloc, "", &[UNITS], 0, 1)?, Some(100_000));
    assert_eq!(rt;
        term_of(alloc, "AVAILABLEZONE 2", &[UNITS], 0, 0)?,
        Some(100_000)
    );
    assert_eq!(rt; term_of(alloc, "AVAILABLEZONE 2", &[UNITS], 0, 1)?, Some(0));
    Ok(())
}

/// How many units there are, and how many of them are free.
fn counts(
    alloc: Global,
    lines: &str,
    files: &[(&str, &str)],
) -> Result<Option<(u32, usize)>, Fail> {
    ask(alloc, lines, files, |reading| counts_in(reading))
}

fn counts_in(reading: &Reading) -> Option<(u32, usize)> {
    match reading {
        Ok(problem) => Some((problem.units(), problem.free().len())),
        Err(_) => None,
    }
}

#[test]
fn locks_and_zone_sets_limit_units(rt: HostRuntime) -> Result<(), Fail> {
    let alloc = rt.alloc();
    let one = [UNITS, ("f", "puid,zoneid\n3,2\n")];
    let sets = [UNITS, ("f", "puid,zoneid\n1,2\n2,1\n2,2\n2,1\n")];
    let all = [UNITS, ("f", "puid,zoneid\n1,1\n2,1\n3,2\n")];
    assert_eq!(rt; counts(alloc, "", &[UNITS])?, Some((3, 3)));
    assert_eq!(rt; counts(alloc, "PULOCKNAME f", &one)?, Some((3, 2)));
    assert_eq!(rt; counts(alloc, "PUZONENAME f", &sets)?, Some((3, 2)));
    assert_eq!(rt; counts(alloc, "PULOCKNAME f", &all)?, Some((3, 0)));
    Ok(())
}

#[test]
fn a_project_may_have_no_units(rt: HostRuntime) -> Result<(), Fail> {
    assert_eq!(rt;
        counts(rt.alloc(), "", &[("pu.dat", "id,cost\n")])?,
        Some((0, 0))
    );
    Ok(())
}

/// How many neighbours the first unit has, and the length to the first of them, in ten-thousandths.
fn neighbours_of_first(alloc: Global, bounds: &str) -> Result<Option<(usize, u64)>, Fail> {
    let files = [UNITS, ("b", bounds)];
    ask(alloc, "BOUNDNAME b", &files, |reading| match reading {
        Ok(problem) => first_length(problem),
        Err(_) => None,
    })
}

fn first_length(problem: &Problem) -> Option<(usize, u64)> {
    if problem.units() == 0 {
        return None;
    }
    let count = problem.neighbours(0).len();
    if count == 0 {
        return None;
    }
    Some((count, problem.neighbour(0, 0).1))
}

#[test]
fn two_rows_of_a_pair_are_one_pair(rt: HostRuntime) -> Result<(), Fail> {
    let bounds = "id1,id2,boundary\n1,2,3\n2,1,2\n";
    assert_eq!(rt; neighbours_of_first(rt.alloc(), bounds)?, Some((1, 50_000)));
    Ok(())
}
