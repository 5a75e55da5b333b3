ghost use Rattle.std.specs.Prelude.{◌≡◌, ◌+◌, ◌<◌, ◌*◌};
ghost use Rattle.mz_num.specs.Limits.{most_runs};
ghost use Rattle.mz_model.specs.Plans.{IsLegalPlan};

use super::problems::three_units;
use mz_files::summed_text;
use mz_model::{Plan, Problem};
use mz_num::NoMemory;
use mz_sums::Summed;
use std::alloc::Global;
use std::test::Fail;

/// The text of three runs that end with the same plan.
fn three_times(alloc: Global, problem: &Problem, plan: &Plan) -> Result<Vec<u8>, NoMemory>
    requires { IsLegalPlan problem.now plan.now }
{
    let mut summed = Summed::open(alloc, problem)?;
    summed.add(plan);
    summed.add(plan);
    summed.add(plan);
    summed_text(alloc, problem, &summed)
}

fn is_text(alloc: Global, problem: &Problem, zones: &[u8], text: &[u8]) -> Result<bool, NoMemory> {
    let Ok(plan) = Plan::of(alloc, problem, zones) else {
        return Ok(false);
    };
    Ok(three_times(alloc, problem, &plan)?.as_slice() == text)
}

fn is_text_of_units(alloc: Global, zones: &[u8], text: &[u8]) -> Result<bool, NoMemory> {
    let problem = three_units(alloc)?;
    is_text(alloc, &problem, zones, text)
}

#[test]
fn each_unit_counts_three_runs(rt: HostRuntime) -> Result<(), Fail> {
    let text = b"planning_unit,zone1,zone2\n1,0,3\n2,0,3\n3,3,0\n";
    assert!(rt; is_text_of_units(rt.alloc(), &[1, 1, 0], text)?);
    Ok(())
}
