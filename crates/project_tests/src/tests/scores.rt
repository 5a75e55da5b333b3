//! The scores of plans of small projects, by zone places, in ten-thousandths.
use super::{AMOUNTS, BOUNDS, FEATURES, UNITS, ask};
use mz_model::{Plan, Problem, evaluate};
use std::alloc::Global;
use std::test::Fail;

const TARGETS: &str = "FEATNAME feat.dat\nPUVSFEATNAME amounts.dat";

const ALL: &str = "FEATNAME feat.dat\nPUVSFEATNAME amounts.dat\nBOUNDNAME bound.dat\nBLM 1";

/// Cost, boundary and penalty of a plan of a project; none where either is refused.
fn score_of(
    alloc: Global,
    lines: &str,
    files: &[(&str, &str)],
    zones: &[u8],
) -> Result<Option<(u128, u128, u128)>, Fail> {
    ask(alloc, lines, files, |reading| match reading {
        Ok(problem) => scored(alloc, problem, zones),
        Err(_) => None,
    })
}

fn scored(alloc: Global, problem: &Problem, zones: &[u8]) -> Option<(u128, u128, u128)> {
    match Plan::of(alloc, problem, zones) {
        Ok(plan) => {
            let score = evaluate(problem, &plan);
            Some((score.cost, score.boundary, score.penalty))
        }
        Err(_) => None,
    }
}

#[test]
fn plans_without_boundaries(rt: HostRuntime) -> Result<(), Fail> {
    let alloc = rt.alloc();
    let files = [UNITS, FEATURES, AMOUNTS];
    assert_eq!(rt;
        score_of(alloc, TARGETS, &files, &[0, 0, 0])?,
        Some((0, 0, 600_000))
    );
    assert_eq!(rt;
        score_of(alloc, TARGETS, &files, &[1, 0, 0])?,
        Some((100_000, 0, 300_000))
    );
    assert_eq!(rt;
        score_of(alloc, TARGETS, &files, &[0, 0, 1])?,
        Some((300_000, 0, 0))
    );
    Ok(())
}

/// Half of 9 is asked, the first two units reach it, and 2 is held.
#[test]
fn a_plan_that_misses_a_share(rt: HostRuntime) -> Result<(), Fail> {
    let half = ("feat.dat", "id,target,prop,spf\n1,4,0.5,2\n");
    let found = score_of(rt.alloc(), TARGETS, &[UNITS, half, AMOUNTS], &[1, 0, 0])?;
    assert_eq!(rt; found, Some((100_000, 0, 333_333)));
    Ok(())
}

/// The score of a plan of the project with boundaries.
fn bounded_score(alloc: Global, zones: &[u8]) -> Result<Option<(u128, u128, u128)>, Fail> {
    score_of(alloc, ALL, &[UNITS, FEATURES, AMOUNTS, BOUNDS], zones)
}

#[test]
fn plans_with_boundaries(rt: HostRuntime) -> Result<(), Fail> {
    let alloc = rt.alloc();
    assert_eq!(rt; bounded_score(alloc, &[0, 0, 0])?, Some((0, 0, 600_000)));
    assert_eq!(rt;
        bounded_score(alloc, &[1, 0, 0])?,
        Some((100_000, 70_000, 300_000))
    );
    assert_eq!(rt;
        bounded_score(alloc, &[0, 0, 1])?,
        Some((300_000, 70_000, 0))
    );
    assert_eq!(rt;
        bounded_score(alloc, &[1, 1, 0])?,
        Some((300_000, 90_000, 0))
    );
    assert_eq!(rt;
        bounded_score(alloc, &[1, 1, 1])?,
        Some((600_000, 20_000, 0))
    );
    Ok(())
}

#[test]
fn features_that_no_unit_holds(rt: HostRuntime) -> Result<(), Fail> {
    let features = (
        "feat.dat",
        "id,target,spf,name\n1,4,2,f\n2,0,1,g\n3,5,3,h\n",
    );
    let files = [UNITS, features, AMOUNTS, BOUNDS];
    assert_eq!(rt;
        score_of(rt.alloc(), ALL, &files, &[0, 0, 1])?,
        Some((300_000, 70_000, 30_000))
    );
    Ok(())
}

const THREE_ZONES: &str = "FEATNAME feat.dat
PUVSFEATNAME amounts.dat
BOUNDNAME bound.dat
BLM 1
ZONESNAME z
ZONECONTRIBNAME q
ZONETARGETNAME t";

/// The score of a plan of a project of three zones with these zone targets.
fn score_in_three_zones(alloc: Global, targets: &str) -> Result<Option<(u128, u128, u128)>, Fail> {
    let files = [
        UNITS,
        FEATURES,
        AMOUNTS,
        BOUNDS,
        ("z", "zoneid,zonename\n1,a\n2,b\n3,c\n"),
        ("q", "zoneid,featureid,fraction\n2,1,0.5\n3,1,1\n"),
        ("t", targets),
    ];
    score_of(alloc, THREE_ZONES, &files, &[2, 1, 0])
}

#[test]
fn three_zones_with_contributions_and_a_zone_target(rt: HostRuntime) -> Result<(), Fail> {
    let found = score_in_three_zones(rt.alloc(), "zoneid,featureid,target\n3,1,4\n")?;
    assert_eq!(rt; found, Some((300_000, 140_000, 375_000)));
    Ok(())
}

/// Half of 9 is asked in the third zone, and 2 is held there.
#[test]
fn a_zone_target_may_be_a_share(rt: HostRuntime) -> Result<(), Fail> {
    let targets = "zoneid,featureid,target,targettype\n3,1,0.5,1\n";
    let found = score_in_three_zones(rt.alloc(), targets)?;
    assert_eq!(rt; found, Some((300_000, 140_000, 408_333)));
    Ok(())
}

/// Whether the boundary of a plan of a project with these boundaries has this cost.
fn has_boundary<'a>(
    alloc: Global,
    lines: &str,
    bounds: &'a str,
    costs: &'a str,
    zones: &[u8],
    boundary: u128,
) -> Result<bool, Fail> {
    let files = [UNITS, ("b", bounds), ("k", costs)];
    match score_of(alloc, lines, &files, zones)? {
        Some(score) => Ok(score.1 == boundary),
        None => Ok(false),
    }
}

#[test]
fn boundaries_are_added_and_weighed(rt: HostRuntime) -> Result<(), Fail> {
    let alloc = rt.alloc();
    let lines = "BOUNDNAME b\nBLM 1";
    let pairs = "id1,id2,boundary\n1,2,3\n2,1,2\n";
    let outer = "id1,id2,boundary\n1,1,3\n1,1,2\n";
    let short = "id1,id2,boundary\n1,2,0.0001\n";
    assert!(rt; has_boundary(alloc, lines, pairs, "", &[1, 0, 0], 50_000)?);
    assert!(rt; has_boundary(alloc, lines, outer, "", &[1, 0, 0], 50_000)?);
    assert!(rt; has_boundary(alloc, "BOUNDNAME b\nBLM 0.5", short, "", &[1, 0, 0], 1)?);
    Ok(())
}

/// The same with these costs between zones.
fn has_boundary_at(alloc: Global, costs: &str, zones: &[u8], boundary: u128) -> Result<bool, Fail> {
    let lines = "BOUNDNAME b\nZONEBOUNDCOSTNAME k\nBLM 1";
    has_boundary(alloc, lines, BOUNDS.1, costs, zones, boundary)
}

#[test]
fn boundaries_between_zones_have_costs(rt: HostRuntime) -> Result<(), Fail> {
    let alloc = rt.alloc();
    let once = "zoneid1,zoneid2,cost\n1,2,0.5\n";
    let twice = "zoneid1,zoneid2,cost\n1,2,0.5\n2,1,0.5\n";
    let within = "zoneid1,zoneid2,cost\n2,2,1\n";
    assert!(rt; has_boundary_at(alloc, once, &[1, 0, 0], 35_000)?);
    assert!(rt; has_boundary_at(alloc, twice, &[1, 0, 0], 35_000)?);
    assert!(rt; has_boundary_at(alloc, within, &[1, 1, 0], 50_000)?);
    Ok(())
}

#[test]
fn the_unit_file_may_have_tabs_and_other_columns(rt: HostRuntime) -> Result<(), Fail> {
    let units = (
        "pu.dat",
        "cost\tname\tid\r\n10\ta\t1\r\n20\tb\t2\r\n30\tc\t3\r\n",
    );
    let files = [units, FEATURES, AMOUNTS, BOUNDS];
    assert_eq!(rt;
        score_of(rt.alloc(), ALL, &files, &[1, 0, 0])?,
        Some((100_000, 70_000, 300_000))
    );
    Ok(())
}
