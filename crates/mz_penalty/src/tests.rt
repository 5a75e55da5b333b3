use crate::{base_penalty, weight_of};
use mz_num::{Mic6, NoMemory};
use std::alloc::Global;
use std::test::Fail;

/// The base where three units of costs 10, 20 and 30 hold 2, 3 and 4 of the feature.
fn three_units(alloc: Global, level: u64) -> Result<u64, NoMemory> {
    let raw = [100_000, 200_000, 300_000];
    base_penalty(alloc, &raw, &[(0, 20_000), (1, 30_000), (2, 40_000)], level)
}

/// The base where no unit holds the feature.
fn no_units(alloc: Global) -> Result<u64, NoMemory> {
    base_penalty(alloc, &[100_000, 200_000, 300_000], &[], 50_000)
}

/// The base where two units have equal costs per amount.
fn equal_units(alloc: Global) -> Result<u64, NoMemory> {
    base_penalty(
        alloc,
        &[200_000, 100_000],
        &[(0, 20_000), (1, 10_000)],
        10_000,
    )
}

/// The base where the unit of the greater cost has the lesser cost per amount.
fn unequal_units(alloc: Global) -> Result<u64, NoMemory> {
    base_penalty(
        alloc,
        &[100_000, 150_000],
        &[(0, 10_000), (1, 30_000)],
        30_000,
    )
}

#[test]
fn the_cheapest_units_that_reach_the_level_are_taken(rt: HostRuntime) -> Result<(), Fail> {
    assert_eq!(rt; three_units(rt.alloc(), 40_000)?, 300_000);
    assert_eq!(rt; three_units(rt.alloc(), 50_000)?, 300_000);
    assert_eq!(rt; three_units(rt.alloc(), 50_001)?, 600_000);
    assert_eq!(rt; three_units(rt.alloc(), 90_001)?, 600_000);
    assert_eq!(rt; three_units(rt.alloc(), 0)?, 10_000);
    Ok(())
}

#[test]
fn no_amount_gives_the_least_base(rt: HostRuntime) -> Result<(), Fail> {
    assert_eq!(rt; no_units(rt.alloc())?, 10_000);
    Ok(())
}

#[test]
fn units_are_taken_by_cost_per_amount_and_place(rt: HostRuntime) -> Result<(), Fail> {
    assert_eq!(rt; equal_units(rt.alloc())?, 200_000);
    assert_eq!(rt; unequal_units(rt.alloc())?, 150_000);
    Ok(())
}

#[test]
fn a_weight_is_rounded_half_up(rt: HostRuntime) {
    assert!(rt; weight_of(Mic6(2_000_000), 300_000) == 600_000);
    assert!(rt; weight_of(Mic6(3_000_000), 10_000) == 30_000);
    assert!(rt; weight_of(Mic6(50), 10_000) == 1);
    assert!(rt; weight_of(Mic6(49), 10_000) == 0);
}
