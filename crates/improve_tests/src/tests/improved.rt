//! Plans and what improvement makes of them, as worked out by hand.
ghost use Rattle.std.specs.Prelude.{IfSome};
ghost use Rattle.mz_model.specs.Plans.{IsLegalPlan};

use super::problems::{alike_zones, locked_units, three_units};
use mz_delta::{Judged, Reading, totals_of};
use mz_improve::improve;
use mz_model::{Plan, Problem, Score, evaluate};
use mz_num::NoMemory;
use std::alloc::Global;
use std::test::Fail;

/// What improvement leaves of a plan of three units: the number of changes, the zones, what is held for the first
/// target row, and the score.
#[derive(Clone, Copy, PartialEq, Eq, Debug)]
struct Outcome {
    changes: u128,
    zones: [u8; 3],
    held: u64,
    score: Score,
}

fn plan_of(alloc: Global, problem: &Problem, zones: &[u8]) -> Option<Plan>
    ensures { IfSome result (λ plan. IsLegalPlan problem.now plan) }
{
    match Plan::of(alloc, problem, zones) {
        Ok(plan) => Some(plan),
        Err(_) => None,
    }
}

fn outcome_of(
    changes: u128,
    plan: &Plan,
    problem: &Problem,
    totals: &[u64],
    score: Score,
) -> Option<Outcome>
    requires { IsLegalPlan problem.now plan.now }
{
    if problem.units() != 3 {
        return None;
    }
    Some(Outcome {
        changes,
        zones: [plan.zone(0), plan.zone(1), plan.zone(2)],
        held: *totals.first()?,
        score,
    })
}

fn improved(alloc: Global, problem: &Problem, zones: &[u8]) -> Option<Outcome> {
    let mut plan = plan_of(alloc, problem, zones)?;
    let mut totals = totals_of(alloc, problem, &plan).ok()?;
    let mut score = evaluate(problem, &plan);
    let mut reading = Reading::room(alloc, problem).ok()?;
    let mut judged = Judged::room(alloc, problem).ok()?;
    let changes = improve(
        problem,
        &mut plan,
        totals.as_mut_slice(),
        &mut score,
        &mut reading,
        &mut judged,
    );
    outcome_of(changes, &plan, problem, totals.as_slice(), score)
}

fn of_three_units(alloc: Global, zones: &[u8]) -> Result<Option<Outcome>, NoMemory> {
    let problem = three_units(alloc)?;
    Ok(improved(alloc, &problem, zones))
}

fn of_locked_units(alloc: Global, zones: &[u8]) -> Result<Option<Outcome>, NoMemory> {
    let problem = locked_units(alloc)?;
    Ok(improved(alloc, &problem, zones))
}

fn of_alike_zones(alloc: Global, zones: &[u8]) -> Result<Option<Outcome>, NoMemory> {
    let problem = alike_zones(alloc)?;
    Ok(improved(alloc, &problem, zones))
}

/// The score of the three units with the first two in the second zone.
const BEST: Score = Score {
    cost: 300_000,
    boundary: 90_000,
    penalty: 0,
    total: 390_000,
};

#[test]
fn three_units_improve_by_two_changes(rt: HostRuntime) -> Result<(), Fail> {
    let best = Outcome {
        changes: 2,
        zones: [1, 1, 0],
        held: 50_000,
        score: BEST,
    };
    assert!(rt; of_three_units(rt.alloc(), &[0, 0, 0])? == Some(best));
    Ok(())
}

#[test]
fn the_improved_plan_stays(rt: HostRuntime) -> Result<(), Fail> {
    let best = Outcome {
        changes: 0,
        zones: [1, 1, 0],
        held: 50_000,
        score: BEST,
    };
    assert!(rt; of_three_units(rt.alloc(), &[1, 1, 0])? == Some(best));
    Ok(())
}

#[test]
fn locked_units_stay(rt: HostRuntime) -> Result<(), Fail> {
    let locked = Outcome {
        changes: 0,
        zones: [0, 0, 1],
        held: 40_000,
        score: Score {
            cost: 300_000,
            boundary: 70_000,
            penalty: 0,
            total: 370_000,
        },
    };
    assert!(rt; of_locked_units(rt.alloc(), &[0, 0, 1])? == Some(locked));
    Ok(())
}

/// A plan that misses nothing and costs nothing.
fn free_of_cost(changes: u128, zones: [u8; 3]) -> Outcome {
    Outcome {
        changes,
        zones,
        held: 50_000,
        score: Score {
            cost: 0,
            boundary: 0,
            penalty: 0,
            total: 0,
        },
    }
}

#[test]
fn the_lesser_of_two_zones_is_taken(rt: HostRuntime) -> Result<(), Fail> {
    assert!(rt; of_alike_zones(rt.alloc(), &[0, 0, 0])? == Some(free_of_cost(2, [1, 1, 0])));
    Ok(())
}

#[test]
fn the_present_zone_wins_a_tie(rt: HostRuntime) -> Result<(), Fail> {
    assert!(rt; of_alike_zones(rt.alloc(), &[2, 2, 0])? == Some(free_of_cost(0, [2, 2, 0])));
    Ok(())
}
