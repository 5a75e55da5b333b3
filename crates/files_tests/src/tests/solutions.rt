ghost use Rattle.std.specs.Prelude.{◌≡◌, IfOk};
ghost use Rattle.mz_num.specs.Places.{list_below};
ghost use Rattle.mz_model.specs.Parts.{target_count};
ghost use Rattle.mz_model.specs.Plans.{IsLegalPlan};
ghost use Rattle.mz_model.specs.Targets.{held_of};

use super::problems::three_units;
use mz_delta::totals_of;
use mz_files::solution_text;
use mz_model::{Plan, Problem, evaluate};
use mz_num::NoMemory;
use std::alloc::Global;
use std::test::Fail;

#[tactic(auto, unfolding(mz_delta::specs::Reading::totals_of_plan))]
fn own_totals(alloc: Global, problem: &Problem, plan: &Plan) -> Result<Vec<u64>, NoMemory>
    requires { IsLegalPlan problem.now plan.now }
    ensures { IfOk result (λ totals. totals.items
        ≡ list_below (target_count problem.now) (held_of problem.now plan.now)) }
{
    totals_of(alloc, problem, plan)
}

fn text_of(alloc: Global, problem: &Problem, plan: &Plan) -> Result<Vec<u8>, NoMemory>
    requires { IsLegalPlan problem.now plan.now }
{
    let totals = own_totals(alloc, problem, plan)?;
    let score = evaluate(problem, plan);
    solution_text(alloc, problem, plan, totals.as_slice(), &score)
}

fn is_text(alloc: Global, problem: &Problem, zones: &[u8], text: &[u8]) -> Result<bool, NoMemory> {
    let Ok(plan) = Plan::of(alloc, problem, zones) else {
        return Ok(false);
    };
    Ok(text_of(alloc, problem, &plan)?.as_slice() == text)
}

fn is_text_of_units(alloc: Global, zones: &[u8], text: &[u8]) -> Result<bool, NoMemory> {
    let problem = three_units(alloc)?;
    is_text(alloc, &problem, zones, text)
}

#[test]
fn a_solution_has_zones_and_scores(rt: HostRuntime) -> Result<(), Fail> {
    let text = b"planning_unit,zone\n1,2\n2,2\n3,1\nscore,39.0000\ncost,30.0000\n\
        boundary,9.0000\npenalty,0.0000\nshortfall,0.0000\n";
    assert!(rt; is_text_of_units(rt.alloc(), &[1, 1, 0], text)?);
    Ok(())
}
