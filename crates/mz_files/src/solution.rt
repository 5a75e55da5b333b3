//! The solution text of a plan.
ghost use Rattle.std.specs.Prelude.{◌≡◌, ◌++◌, ◌<◌, IfOk, OnOk};
ghost use Rattle.std.specs.List.{concat};
ghost use Rattle.mz_num.specs.Places.{list_below};
ghost use Rattle.mz_model.specs.Parts.{target_count, unit_count};
ghost use Rattle.mz_model.specs.Plans.{IsLegalPlan};
ghost use Rattle.mz_model.specs.Scores.{score_of_plan};
ghost use Rattle.mz_model.specs.Targets.{held_of};
ghost use Rattle.mz_model.specs.Valid.{IsValid};
ghost use Rattle.mz_files.specs.Solution.{amount_line, score_lines, solution_text, unit_line};

use crate::missed::shortfall;
use mz_model::{Plan, Problem, Score};
use mz_num::{NoMemory, push_bytes, push_number, write_ten4};
use std::alloc::Global;

/// The zone of each unit, and what the plan scores and misses. `totals` is what the plan holds for each
/// target row, and `score` is its score.
#[tactic(auto, unfolding(crate::specs::Solution::solution_text))]
pub fn solution_text(
    alloc: Global,
    problem: &Problem,
    plan: &Plan,
    totals: &[u64],
    score: &Score,
) -> Result<Vec<u8>, NoMemory>
    requires legal { IsLegalPlan problem.now plan.now }
    requires own_totals { totals.now ≡ list_below (target_count problem.now) (held_of problem.now plan.now) }
    requires own_score { score.now ≡ score_of_plan problem.now plan.now }
    ensures { IfOk result (λ text. text.items ≡ solution_text problem.now plan.now) }
{
    let mut text = Vec::from_slice(alloc, b"planning_unit,zone\n")?;
    push_units(&mut text, problem, plan)?;
    push_scores(alloc, &mut text, score, shortfall(problem, totals))?;
    Ok(text)
}

fn push_units(text: &mut Vec<u8>, problem: &Problem, plan: &Plan) -> Result<(), NoMemory>
    requires { IsLegalPlan problem.now plan.now }
    ensures { OnOk result (text.new.items
        ≡ text.old.items ++ concat (list_below (unit_count problem.now) (unit_line problem.now plan.now))) }
{
    for unit in 0..problem.units() {
        push_unit(text, problem, plan, unit)?;
    }
    Ok(())
}

fn push_unit(text: &mut Vec<u8>, problem: &Problem, plan: &Plan, unit: u32) -> Result<(), NoMemory>
    requires legal { IsLegalPlan problem.now plan.now }
    requires valid { IsValid problem.now }
    requires in_range { unit < unit_count problem.now }
    ensures { OnOk result (text.new.items ≡ text.old.items ++ unit_line problem.now plan.now unit) }
{
    push_number(text, u64::from(problem.unit_id(unit)))?;
    push_bytes(text, b",")?;
    push_number(text, u64::from(problem.zone_id(plan.zone(unit))))?;
    push_bytes(text, b"\n")
}

fn push_amount(alloc: Global, text: &mut Vec<u8>, name: &str, amount: u128) -> Result<(), NoMemory>
    ensures { OnOk result (text.new.items ≡ text.old.items ++ amount_line name.now amount) }
{
    push_bytes(text, name.as_bytes())?;
    push_bytes(text, b",")?;
    write_ten4(alloc, amount, text)?;
    push_bytes(text, b"\n")
}

fn push_scores(
    alloc: Global,
    text: &mut Vec<u8>,
    score: &Score,
    shortfall: u128,
) -> Result<(), NoMemory>
    ensures { OnOk result (text.new.items ≡ text.old.items ++ score_lines score.now shortfall) }
{
    push_amount(alloc, text, "score", score.total)?;
    push_amount(alloc, text, "cost", score.cost)?;
    push_amount(alloc, text, "boundary", score.boundary)?;
    push_amount(alloc, text, "penalty", score.penalty)?;
    push_amount(alloc, text, "shortfall", shortfall)
}
