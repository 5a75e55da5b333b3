//! The starting plan. The drawn zones were worked out of the words of Pcg32 by a script of their own.
ghost use Rattle.std.specs.Prelude.{◌≤◌};
ghost use Rattle.mz_model.specs.Plans.{IsLegalPlan};

use super::{three_units, three_zones};
use mz_history::start;
use mz_model::{Plan, Problem};
use mz_num::{Mic6, NoMemory};
use std::alloc::Global;
use std::test::Fail;

/// The zones of three units.
fn zones_of(problem: &Problem, plan: &Plan) -> Option<[u8; 3]>
    requires { IsLegalPlan problem.now plan.now }
{
    if problem.units() != 3 {
        return None;
    }
    Some([plan.zone(0), plan.zone(1), plan.zone(2)])
}

/// Whether run 1 starts with these zones.
fn starts_with(
    alloc: Global,
    problem: &Problem,
    prop: Mic6,
    seed: u64,
    zones: [u8; 3],
) -> Result<bool, NoMemory>
    requires { prop ≤ 1000000 }
{
    let plan = start(alloc, problem, prop, seed, 1)?;
    Ok(zones_of(problem, &plan) == Some(zones))
}

#[test]
fn no_share_starts_in_the_available_zone(rt: HostRuntime) -> Result<(), Fail> {
    let problem = three_units(rt.alloc())?;
    for seed in [1, 2, 3] {
        assert!(rt; starts_with(rt.alloc(), &problem, Mic6(0), seed, [0, 0, 0])?);
    }
    Ok(())
}

#[test]
fn a_whole_share_is_drawn(rt: HostRuntime) -> Result<(), Fail> {
    let problem = three_units(rt.alloc())?;
    for (seed, zones) in [(1, [1, 1, 1]), (2, [0, 0, 1]), (3, [1, 1, 0])] {
        assert!(rt; starts_with(rt.alloc(), &problem, Mic6(1_000_000), seed, zones)?);
    }
    Ok(())
}

#[test]
fn half_a_share_is_drawn_by_half(rt: HostRuntime) -> Result<(), Fail> {
    let problem = three_zones(rt.alloc())?;
    for (seed, zones) in [
        (1, [0, 2, 0]),
        (2, [0, 0, 1]),
        (4, [0, 0, 2]),
        (5, [1, 2, 1]),
    ] {
        assert!(rt; starts_with(rt.alloc(), &problem, Mic6(500_000), seed, zones)?);
    }
    Ok(())
}
