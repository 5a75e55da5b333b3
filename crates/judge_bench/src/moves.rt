//! Moves of a plan that are judged and not made.
ghost use Rattle.std.specs.Prelude.{◌≡◌, ◌<◌, IfOk};
ghost use Rattle.mz_model.specs.Parts.{unit_count};
ghost use Rattle.mz_model.specs.Plans.{IsLegalPlan};

use crate::fault::Fault;
use mz_delta::{Judged, Reading, judge, read_plan, totals_of};
use mz_draw::Drawer;
use mz_model::{Plan, PlanFault, Problem};
use std::alloc::Global;

/// The sum of the changes of score that so many drawn moves make, each read of one plan and judged.
pub fn judge_moves(alloc: Global, problem: &Problem, count: u32) -> Result<i128, Fault> {
    let plan = spread_plan(alloc, problem)?;
    let totals = totals_of(alloc, problem, &plan)?;
    let mut reading = Reading::room(alloc, problem)?;
    let mut judged = Judged::room(alloc, problem)?;
    let mut drawer = Drawer::new(7, 1, 0);
    let free = problem.free();
    let counts = problem.counts();
    if free.is_empty() {
        return Err(Fault::Malformed);
    }
    let mut sum: i128 = 0;
    for _move in 0..count {
        let draw = drawer.next(free, counts);
        read_plan(problem, &plan, totals.as_slice(), draw.unit, &mut reading);
        judge(problem, &reading, draw, &mut judged);
        sum = sum.wrapping_add(judged.change);
    }
    Ok(sum)
}

/// A plan in which the zones take turns.
fn spread_plan(alloc: Global, problem: &Problem) -> Result<Plan, Fault>
    ensures { IfOk result (λ plan. IsLegalPlan problem.now plan) }
{
    let mut zones = Vec::new(alloc);
    for unit in 0..problem.units() {
        zones.push((unit * 7 % 3) as u8)?;
    }
    match Plan::of(alloc, problem, zones.as_slice()) {
        Ok(plan) => Ok(plan),
        Err(PlanFault::NoMemory) => Err(Fault::NoMemory),
        Err(_) => Err(Fault::Malformed),
    }
}
