//! Where a run stands after its journal.
ghost use Rattle.std.specs.Prelude.{◌≡◌, ◌<◌, IfOk, if◌then◌else◌, length, replicate, slice_set};
ghost use Rattle.mz_model.specs.Move.{moved_plan};
ghost use Rattle.mz_model.specs.Parts.{target_count, unit_count};
ghost use Rattle.mz_model.specs.Plans.{IsLegalPlan};
ghost use Rattle.mz_model.specs.Valid.{IsValid};
ghost use Rattle.mz_delta.specs.Reading.{totals_of_plan};
ghost use Rattle.mz_state.specs.Standing.{IsMoveFrom, IsPosition};
ghost use Rattle.mz_state.specs.Versions.{raised_rows, version_around};

use crate::sums::changed_score;
use crate::versions::{greater, greatest_of_rows, greatest_of_units};
use mz_delta::{Judged, totals_of};
use mz_model::{Plan, Problem, Score, evaluate};
use mz_num::NoMemory;
use std::alloc::Global;

/// The plan of a journal with what it holds and scores, and the version of each item: how many entries
/// reach up to the last accepted one that changed it, or 0.
#[derive(Debug, Drop)]
pub(crate) struct Standing {
    pub(crate) plan: Plan,
    /// What is held for each target row, in ten-thousandths.
    pub(crate) totals: Vec<u64>,
    pub(crate) score: Score,
    /// The versions of the units' zones.
    pub(crate) units: Vec<u32>,
    /// The versions of the target rows.
    pub(crate) rows: Vec<u32>,
    /// How many entries reach up to the last accepted one.
    pub(crate) last: u32,
}

impl Standing {
    /// A plan of which nothing was changed.
    pub(crate) fn of(alloc: Global, problem: &Problem, plan: Plan) -> Result<Standing, NoMemory>
        requires { IsLegalPlan problem.now plan }

        // The plan with its totals and score.
        ensures plan { IfOk result (λ standing. standing.plan ≡ plan) }
        ensures position { IfOk result (λ standing.
            IsPosition problem.now standing.plan standing.totals.items standing.score) }

        // Nothing was changed yet.
        ensures units { IfOk result (λ standing. standing.units.items ≡ replicate (unit_count problem.now) 0) }
        ensures rows { IfOk result (λ standing. standing.rows.items ≡ replicate (target_count problem.now) 0) }
        ensures last { IfOk result (λ standing. standing.last ≡ 0) }
    {
        let totals = totals_of(alloc, problem, &plan)?;
        let score = evaluate(problem, &plan);
        let units = vec![in alloc; 0; problem.units() as usize]?;
        let rows = vec![in alloc; 0; problem.targets() as usize]?;
        Ok(Standing {
            plan,
            totals,
            score,
            units,
            rows,
            last: 0,
        })
    }

    /// The greatest version of a unit's items.
    pub(crate) fn version_around(&self, problem: &Problem, unit: u32) -> u32
        requires unit { unit < unit_count problem.now }
        requires units { length self.now.units.items ≡ unit_count problem.now }
        requires rows { length self.now.rows.items ≡ target_count problem.now }
        ensures { result ≡ version_around problem.now self.now.units.items self.now.rows.items unit }
    {
        let own = self.units[unit as usize];
        let near = greatest_of_units(self.units.as_slice(), problem.neighbours(unit));
        let held = greatest_of_rows(self.rows.as_slice(), problem.touches(unit));
        greater(own, greater(near, held))
    }

    /// Makes a judged move where it was accepted. So many entries reach up to this one.
    pub(crate) fn decide(&mut self, problem: &Problem, judged: &Judged, accepted: bool, count: u32)
        // The position and the move.
        requires valid { IsValid problem.now }
        requires position { IsPosition problem.now self.old.plan self.old.totals.items self.old.score }
        requires moves { IsMoveFrom problem.now self.old.plan judged.now }

        // The versions of all units and rows.
        requires units { length self.old.units.items ≡ unit_count problem.now }
        requires rows { length self.old.rows.items ≡ target_count problem.now }

        // The position after the move, where it was accepted.
        ensures plan { self.new.plan ≡
            (if accepted then moved_plan self.old.plan judged.now.unit judged.now.new else self.old.plan) }
        ensures position { IsPosition problem.now self.new.plan self.new.totals.items self.new.score }

        // The versions after it.
        ensures units { self.new.units.items ≡
            (if accepted then slice_set self.old.units.items judged.now.unit count else self.old.units.items) }
        ensures rows { self.new.rows.items ≡
            (if accepted
            then raised_rows problem.now judged.now.unit judged.now.old judged.now.new count self.old.rows.items
            else self.old.rows.items) }
        ensures last { self.new.last ≡ (if accepted then count else self.old.last) }
    {
        if accepted {
            self.score = changed_score(problem, &self.plan, &self.score, judged);
            move_rows(
                problem,
                &self.plan,
                judged,
                count,
                &mut self.totals,
                &mut self.rows,
            );
            self.plan.put(problem, judged.unit, judged.new);
            self.units[judged.unit as usize] = count;
            self.last = count;
        }
    }
}

/// Gives each target row that the moved unit touches what is held for it after the move, and the rows of
/// which another amount is held their new version.
fn move_rows(
    problem: &Problem,
    plan: &Plan,
    judged: &Judged,
    count: u32,
    totals: &mut Vec<u64>,
    versions: &mut Vec<u32>,
)
    requires moves { IsMoveFrom problem.now plan.now judged.now }
    requires totals { totals.old.items ≡ totals_of_plan problem.now plan.now }
    requires rows { length versions.old.items ≡ target_count problem.now }
    ensures totals { totals.new.items ≡
        totals_of_plan problem.now (moved_plan plan.now judged.now.unit judged.now.new) }
    ensures rows { versions.new.items ≡
        raised_rows problem.now judged.now.unit judged.now.old judged.now.new count versions.old.items }
{
    let _ = plan;
    let moved = judged.totals.as_slice();
    let touches = problem.touches(judged.unit);
    for (i, touch) in touches.iter().enumerate() {
        let row = touch.row as usize;
        if totals[row] != moved[i] {
            totals[row] = moved[i];
            versions[row] = count;
        }
    }
}
