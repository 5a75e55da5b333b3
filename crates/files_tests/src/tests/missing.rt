use super::problems::{three_units, three_zones, unheld_features};
use mz_files::{missing_rows, missing_text, shortfall};
use mz_model::Problem;
use mz_num::{Mic6, NoMemory};
use std::alloc::Global;
use std::test::Fail;

const WHOLE: Mic6 = Mic6(1_000_000);

const HALF: Mic6 = Mic6(500_000);

fn is_text(
    alloc: Global,
    problem: &Problem,
    totals: &[u64],
    level: Mic6,
    text: &[u8],
) -> Result<bool, NoMemory> {
    if totals.len() != problem.targets() as usize {
        return Ok(false);
    }
    Ok(missing_text(alloc, problem, totals, level)?.as_slice() == text)
}

fn is_text_of_units(alloc: Global, held: u64, level: Mic6, text: &[u8]) -> Result<bool, NoMemory> {
    let problem = three_units(alloc)?;
    is_text(alloc, &problem, &[held], level, text)
}

#[test]
fn a_target_is_met_at_its_missing_level(rt: HostRuntime) -> Result<(), Fail> {
    let alloc = rt.alloc();
    let missed = b"target,zone,feature,name,level,held,shortfall,met\n\
        1,0,1,f,4.0000,0.0000,4.0000,no\n";
    assert!(rt; is_text_of_units(alloc, 0, WHOLE, missed)?);
    let met = b"target,zone,feature,name,level,held,shortfall,met\n\
        1,0,1,f,4.0000,2.0000,2.0000,yes\n";
    assert!(rt; is_text_of_units(alloc, 20_000, HALF, met)?);
    Ok(())
}

fn is_text_of_zones(alloc: Global, totals: &[u64], text: &[u8]) -> Result<bool, NoMemory> {
    let problem = three_zones(alloc)?;
    is_text(alloc, &problem, totals, WHOLE, text)
}

#[test]
fn a_row_of_a_zone_has_the_id_of_its_zone(rt: HostRuntime) -> Result<(), Fail> {
    let text = b"target,zone,feature,name,level,held,shortfall,met\n\
        1,0,1,f,4.0000,3.5000,0.5000,no\n\
        2,3,1,f,4.0000,5.0000,0.0000,yes\n";
    assert!(rt; is_text_of_zones(rt.alloc(), &[35_000, 50_000], text)?);
    Ok(())
}

/// How many rows aren't met, and the shortfall of all.
fn missed(problem: &Problem, totals: &[u64]) -> Option<(u32, u128)> {
    if totals.len() != problem.targets() as usize {
        return None;
    }
    Some((
        missing_rows(problem, totals, WHOLE),
        shortfall(problem, totals),
    ))
}

fn missed_of_features(alloc: Global, totals: &[u64]) -> Result<Option<(u32, u128)>, NoMemory> {
    let problem = unheld_features(alloc)?;
    Ok(missed(&problem, totals))
}

#[test]
fn two_of_three_features_are_missing(rt: HostRuntime) -> Result<(), Fail> {
    let alloc = rt.alloc();
    assert!(rt; missed_of_features(alloc, &[0, 0, 0])? == Some((2, 90_000)));
    assert!(rt; missed_of_features(alloc, &[50_000, 0, 0])? == Some((1, 50_000)));
    Ok(())
}
