//! How often units have zones in several plans, counted by hand.
ghost use Rattle.std.specs.Prelude.{◌≡◌, ◌+◌, ◌<◌, IfOk, IfSome};
ghost use Rattle.mz_num.specs.Limits.{most_runs};
ghost use Rattle.mz_model.specs.Plans.{IsLegalPlan};

use mz_examples::build_three_units;
use mz_model::{Plan, Problem};
use mz_num::NoMemory;
use mz_sums::Summed;
use std::alloc::Global;
use std::test::Fail;

/// How many plans give each of three units the first zone and the second.
type Counts = [(u32, u32); 3];

fn three_units(alloc: Global) -> Result<Problem, NoMemory> {
    build_three_units(alloc)
}

fn plan_of(alloc: Global, problem: &Problem, zones: &[u8]) -> Option<Plan>
    ensures { IfSome result (λ plan. IsLegalPlan problem.now plan) }
{
    match Plan::of(alloc, problem, zones) {
        Ok(plan) => Some(plan),
        Err(_) => None,
    }
}

fn opened(alloc: Global, problem: &Problem) -> Option<Summed>
    ensures parts { IfSome result (λ summed. summed.parts ≡ problem.now) }
    ensures none { IfSome result (λ summed. summed.added ≡ 0) }
{
    Summed::open(alloc, problem).ok()
}

/// Adds the plan of these zones, if it is one.
fn add(alloc: Global, problem: &Problem, zones: &[u8], summed: &mut Summed) -> Option<()>
    requires parts { summed.old.parts ≡ problem.now }
    requires few { summed.old.added < most_runs }
    ensures parts { summed.new.parts ≡ problem.now }
    ensures added { IfSome result (λ _. summed.new.added ≡ summed.old.added + 1) }
{
    let plan = plan_of(alloc, problem, zones)?;
    summed.add(&plan);
    Some(())
}

fn counts_of(problem: &Problem, summed: &Summed) -> Option<Counts>
    requires { summed.now.parts ≡ problem.now }
{
    if problem.units() != 3 || problem.zones() != 2 {
        return None;
    }
    Some([
        (summed.count(0, 0), summed.count(0, 1)),
        (summed.count(1, 0), summed.count(1, 1)),
        (summed.count(2, 0), summed.count(2, 1)),
    ])
}

/// The counts of three plans of the three units.
fn of_three_plans(
    alloc: Global,
    first: &[u8],
    second: &[u8],
    third: &[u8],
) -> Result<Option<Counts>, NoMemory> {
    let problem = three_units(alloc)?;
    Ok(counts_in(alloc, &problem, first, second, third))
}

fn counts_in(
    alloc: Global,
    problem: &Problem,
    first: &[u8],
    second: &[u8],
    third: &[u8],
) -> Option<Counts> {
    let mut summed = opened(alloc, problem)?;
    add(alloc, problem, first, &mut summed)?;
    add(alloc, problem, second, &mut summed)?;
    add(alloc, problem, third, &mut summed)?;
    counts_of(problem, &summed)
}

#[test]
fn three_equal_plans_are_counted(rt: HostRuntime) -> Result<(), Fail> {
    let counts = of_three_plans(rt.alloc(), &[1, 1, 0], &[1, 1, 0], &[1, 1, 0])?;
    assert!(rt; counts == Some([(0, 3), (0, 3), (3, 0)]));
    Ok(())
}

#[test]
fn a_plan_that_differs_is_counted_apart(rt: HostRuntime) -> Result<(), Fail> {
    let counts = of_three_plans(rt.alloc(), &[0, 0, 0], &[0, 0, 0], &[1, 0, 0])?;
    assert!(rt; counts == Some([(2, 1), (3, 0), (3, 0)]));
    Ok(())
}
