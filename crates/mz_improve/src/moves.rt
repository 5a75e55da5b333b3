//! A judged move that is made: what it does to the plan, to what is held, and to the score.
ghost use Rattle.std.specs.Prelude.{◌≡◌, ◌<◌, ◌≤◌, ◌^◌, IsTrue, pos, ◌+ℤ◌, ◌≤ℤ◌};
ghost use Rattle.mz_num.specs.Limits.{greatest_score};
ghost use Rattle.mz_model.specs.Move.{moved_plan};
ghost use Rattle.mz_model.specs.Parts.{unit_count};
ghost use Rattle.mz_model.specs.Plans.{IsLegalPlan};
ghost use Rattle.mz_model.specs.Scores.{score_of_plan};
ghost use Rattle.mz_model.specs.Valid.{IsValid};
ghost use Rattle.mz_model.specs.Zones.{is_allowed};
ghost use Rattle.mz_delta.specs.Judged.{IsDifference};
ghost use Rattle.mz_delta.specs.Reading.{totals_of_plan};

use mz_delta::Judged;
use mz_model::{Plan, Problem, Score};

/// Makes a judged move of a plan with its own totals and score. It costs the moved unit's target rows.
pub(crate) fn make_move(
    problem: &Problem,
    plan: &mut Plan,
    totals: &mut [u64],
    score: &mut Score,
    judged: &Judged,
)
    // The plan with its own totals and score.
    requires legal { IsLegalPlan problem.now plan.old }
    requires totals { totals.old ≡ totals_of_plan problem.now plan.old }
    requires score { score.old ≡ score_of_plan problem.now plan.old }
    // A move of one of its units to an allowed zone, with its differences.
    requires unit { judged.now.unit < unit_count problem.now }
    requires allowed { IsTrue (is_allowed problem.now judged.now.unit judged.now.new) }
    requires difference { IsDifference problem.now plan.old
        (moved_plan plan.old judged.now.unit judged.now.new) judged.now }
    // The moved plan with its own.
    ensures plan { plan.new ≡ moved_plan plan.old judged.now.unit judged.now.new }
    ensures legal { IsLegalPlan problem.now plan.new }
    ensures totals { totals.new ≡ totals_of_plan problem.now plan.new }
    ensures score { score.new ≡ score_of_plan problem.now plan.new }
{
    move_totals(problem, plan, totals, judged);
    *score = moved_score(problem, plan, score, judged);
    plan.put(problem, judged.unit, judged.new);
}

/// Gives each target row that the moved unit touches what is held for it after the move.
fn move_totals(problem: &Problem, plan: &Plan, totals: &mut [u64], judged: &Judged)
    // The plan with its own totals.
    requires legal { IsLegalPlan problem.now plan.now }
    requires totals { totals.old ≡ totals_of_plan problem.now plan.now }

    // A move of one of its units to an allowed zone, with its differences.
    requires unit { judged.now.unit < unit_count problem.now }
    requires allowed { IsTrue (is_allowed problem.now judged.now.unit judged.now.new) }
    requires difference { IsDifference problem.now plan.now
        (moved_plan plan.now judged.now.unit judged.now.new) judged.now }

    // The totals of the moved plan.
    ensures totals { totals.new ≡ totals_of_plan problem.now (moved_plan plan.now judged.now.unit judged.now.new) }
    ensures valid { IsValid problem.now }
{
    let _ = plan;
    let moved = judged.totals.as_slice();
    let touches = problem.touches(judged.unit);
    for (i, touch) in touches.iter().enumerate() {
        totals[touch.row as usize] = moved[i];
    }
}

/// The score of a plan once the judged move is made.
fn moved_score(problem: &Problem, plan: &Plan, score: &Score, judged: &Judged) -> Score
    // The plan with its own score.
    requires valid { IsValid problem.now }
    requires legal { IsLegalPlan problem.now plan.now }
    requires score { score.now ≡ score_of_plan problem.now plan.now }

    // A move of one of its units to an allowed zone, with its differences.
    requires unit { judged.now.unit < unit_count problem.now }
    requires allowed { IsTrue (is_allowed problem.now judged.now.unit judged.now.new) }
    requires difference { IsDifference problem.now plan.now
        (moved_plan plan.now judged.now.unit judged.now.new) judged.now }

    // The score of the moved plan.
    ensures { result ≡ score_of_plan problem.now (moved_plan plan.now judged.now.unit judged.now.new) }
{
    let _ = problem;
    let _ = plan;
    let cost = changed(score.cost, judged.cost);
    let boundary = changed(score.boundary, judged.boundary);
    let penalty = changed(score.penalty, judged.penalty);
    Score {
        cost,
        boundary,
        penalty,
        total: cost + boundary + penalty,
    }
}

/// A sum after its change.
fn changed(sum: u128, change: i128) -> u128
    requires floor { pos 0 ≤ℤ (pos sum +ℤ change) }
    requires ceiling { (pos sum +ℤ change) ≤ℤ pos greatest_score }
    ensures sum { pos result ≡ pos sum +ℤ change }
    ensures small { result ≤ greatest_score }
{
    if change < 0 {
        sum - change.unsigned_abs()
    } else {
        sum + change.unsigned_abs()
    }
}
