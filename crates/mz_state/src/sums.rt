//! Sums that change by a difference.
ghost use Rattle.std.specs.Prelude.{◌≡◌, ◌≤◌, ◌^◌, ℕ, pos, ◌-ℤ◌};
ghost use Rattle.mz_num.specs.Limits.{greatest_score};
ghost use Rattle.mz_model.specs.Move.{moved_plan};
ghost use Rattle.mz_model.specs.Scores.{score_of_plan};
ghost use Rattle.mz_model.specs.Valid.{IsValid};
ghost use Rattle.mz_state.specs.Standing.{IsChange, IsMoveFrom};

use mz_delta::Judged;
use mz_model::{Plan, Problem, Score};

/// A sum after its change.
fn changed(sum: u128, change: i128) -> u128
    requires sum { sum ≤ greatest_score }
    requires change { IsChange sum change }
    ensures { (after : ℕ) → change ≡ pos after -ℤ pos sum → result ≡ after }
{
    if change < 0 {
        sum - change.unsigned_abs()
    } else {
        sum + change.unsigned_abs()
    }
}

/// The score of a plan once the judged move is made.
pub(crate) fn changed_score(problem: &Problem, plan: &Plan, score: &Score, judged: &Judged) -> Score
    requires valid { IsValid problem.now }
    requires moves { IsMoveFrom problem.now plan.now judged.now }
    requires score { score.now ≡ score_of_plan problem.now plan.now }
    ensures { result ≡ score_of_plan problem.now (moved_plan plan.now judged.now.unit judged.now.new) }
{
    let _ = problem;
    let _ = plan;
    Score {
        cost: changed(score.cost, judged.cost),
        boundary: changed(score.boundary, judged.boundary),
        penalty: changed(score.penalty, judged.penalty),
        total: changed(score.total, judged.change),
    }
}
